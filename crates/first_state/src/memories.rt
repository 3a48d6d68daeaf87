//! The memory objects that a machine begins with.

ghost use Rattle.std.specs.Prelude.{◌≡◌, ℕ, ◌+◌, ◌≤◌, map, slice_index};
ghost use Rattle.std.specs.List.{range_with_len};
ghost use Rattle.sls_base.specs.declared.limits.TheConstants.{PAGES, MEMORY_PAGES};
ghost use Rattle.first_state.specs.Filled.{region_page};

use mem_space::{MemPage, Memory};
use sls_base::{PAGE_BYTES, PageNo, RegionSpec};

/// The memory object of a region, whose pages are numbered from `k` on. Those behind its content are fresh.
pub fn memory_of(spec: &RegionSpec, k: PageNo) -> Memory
    requires room { spec.now.pages ≤ MEMORY_PAGES }
    requires pages { k + spec.now.pages ≤ PAGES }
    ensures { result.pages.items ≡ map (region_page spec.now k) (range_with_len 0 spec.now.pages) }
{
    let mut memory = Memory::new();
    for j in 0..spec.pages {
        memory.pages.push(MemPage {
            page: k + u16::from(j),
            fresh: spec.content.len() <= PAGE_BYTES * usize::from(j),
        });
    }
    memory
}
