//! Laws. Each of these functions does nothing: its contract is the law.

ghost use Rattle.std.specs.Prelude.{◌≡◌, ◌+◌, ◌<◌, ℕ};
ghost use Rattle.kobj_codec.specs.declared.obj.Obj.{Obj};
ghost use Rattle.kobj_codec.specs.Objects.{IsObj};
ghost use Rattle.kobj_codec.specs.Records.{IsRecord};

use crate::kinds::{
    CONNECTION_KIND, GROUP_KIND, MEMORY_KIND, NOTIFICATION_KIND, RING_KIND, SCHEDULER_KIND,
    SPACE_KIND, THREAD_KIND,
};
use crate::list::LIST_WORDS;
use crate::space::{COUNT_BITS, FIRST_BITS, MEMORY_BITS, PAGE_BITS, RIGHTS_BITS, UNNAMED_BITS};
use pmem_layout::SLOT_WORDS;

/// Which number each kind of object has.
pub fn kind_numbers()
    ensures group { GROUP_KIND ≡ 1 }
    ensures thread { THREAD_KIND ≡ 2 }
    ensures space { SPACE_KIND ≡ 3 }
    ensures memory { MEMORY_KIND ≡ 4 }
    ensures connection { CONNECTION_KIND ≡ 5 }
    ensures notification { NOTIFICATION_KIND ≡ 6 }
    ensures ring { RING_KIND ≡ 7 }
    ensures scheduler { SCHEDULER_KIND ≡ 8 }
{}

/// How many bits each field of a region has, the lowest first. The last bit of the word tells a region from nothing.
pub fn region_bits()
    ensures page { PAGE_BITS ≡ 20 }
    ensures count { COUNT_BITS ≡ 7 }
    ensures first { FIRST_BITS ≡ 6 }
    ensures memory { MEMORY_BITS ≡ 7 }
    ensures rights { RIGHTS_BITS ≡ 3 }
    ensures whole { PAGE_BITS + COUNT_BITS + FIRST_BITS + MEMORY_BITS + RIGHTS_BITS + UNNAMED_BITS + 1 ≡ 64 }
{}

/// How many words a list of threads has.
pub fn list_words()
    ensures { LIST_WORDS ≡ 17 }
{}

/// A record is told by the words of a slot: others that are equal there are the record of the same object.
pub fn words_of_a_slot()
    ensures { (a b : ℕ → ℕ) (obj : Obj) → ((j : ℕ) → j < SLOT_WORDS → b j ≡ a j) → IsRecord a obj → IsRecord b obj }
{}

/// Words are the record of one object at most.
pub fn one_object()
    ensures { (words : ℕ → ℕ) (a b : Obj) → IsObj a → IsObj b → IsRecord words a → IsRecord words b → a ≡ b }
{}
