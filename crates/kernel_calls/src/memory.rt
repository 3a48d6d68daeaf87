//! The call that makes a memory object.

ghost use Rattle.std.specs.Prelude.{◌≡◌, ◌||◌, ◌≤◌, ℕ, All, take, true};
ghost use Rattle.sls_base.specs.declared.limits.TheConstants.{MEMORY_PAGES};
ghost use Rattle.mem_space.specs.Memory.{numbers_of};
ghost use Rattle.plain_state.specs.Calls.{arg};
ghost use Rattle.plain_state.specs.declared.calls.Call.{Call};
ghost use Rattle.call_readings.specs.NumberSets.{uses_page};
ghost use Rattle.kernel_calls.specs.Does.{DoesCall, KeepsCall};
ghost use Rattle.kernel_calls.specs.Pages.{free_in, is_among};

use crate::done::Done;
use crate::runtime::Runtime;
use call_readings::NumbersInUse;
use kobj_table::Slot;
use mem_space::{MemPage, Memory, PageIndex};
use plain_state::arg;
use sls_base::{ObjId, Thread};

/// Makes a memory object of fresh pages, which take so many of the least free numbers, or all where fewer are free.
fn take_memory(numbers: &mut NumbersInUse, count: PageIndex) -> Memory
    requires { count ≤ MEMORY_PAGES }
    ensures numbers { numbers_of result ≡ take count (free_in numbers.old) }
    ensures fresh { All (λ page. page.fresh ≡ true) result.pages.items }
    ensures used { (page : ℕ) → uses_page numbers.new page
        ≡ (uses_page numbers.old page || is_among (take count (free_in numbers.old)) page) }
    ensures objects { numbers.new.objects ≡ numbers.old.objects }
{
    let mut memory = Memory::new();
    for _ in 0..count {
        let Some(page) = numbers.least_free_page() else {
            return memory;
        };
        numbers.take_page(page);
        memory.pages.push(MemPage { page, fresh: true });
    }
    memory
}

impl Runtime {
    /// Makes a memory object of fresh pages.
    pub(crate) fn mem_new(&mut self, me: ObjId, thread: &Thread) -> Done
        requires { arg thread.now 0 ≤ MEMORY_PAGES }
        ensures does { DoesCall self.old self.new me thread.now Call.MemNew result }
        ensures keeps { KeepsCall self.old self.new me thread.now Call.MemNew result }
    {
        plain_laws::calls::unrefused_call_meets_all();
        let mut numbers = self.numbers;
        let memory = take_memory(&mut numbers, arg(thread, 0) as PageIndex);
        let done = self.make(me, thread, Slot::Memory(memory));
        self.numbers.pages = numbers.pages;
        done
    }
}
