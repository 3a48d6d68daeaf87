//! Memory objects.

ghost use Rattle.std.specs.Prelude.{◌≡◌, ◌<◌, [], slice_get};
ghost use Rattle.arrayvec.specs.ArrayVec.{array_vec_len};

use crate::PageIndex;
use arrayvec::ArrayVec;
use sls_base::{MEMORY_PAGES, PageNo};

/// A page of a memory object: its number, and whether it is fresh, which is to say that nothing was ever stored to it,
/// so that it reads as zero.
#[derive(Clone, Copy, Default)]
pub struct MemPage {
    pub page: PageNo,
    pub fresh: bool,
}

/// A memory object: its pages, each at its index.
#[derive(Drop)]
pub struct Memory {
    pub pages: ArrayVec<MemPage, MEMORY_PAGES>,
}

impl Memory {
    ghost use Rattle.mem_space.specs.Memory.{MarksPage, numbers_of};

    /// A memory object without pages.
    pub fn new() -> Memory
        ensures { result.pages.items ≡ [] }
    {
        Memory {
            pages: ArrayVec::new(),
        }
    }

    /// The page at an index. It is None exactly where there are no more than `index` pages.
    pub fn page(&self, index: PageIndex) -> Option<MemPage>
        ensures { result ≡ slice_get self.now.pages.items index }
    {
        self.pages.get(index as usize).copied()
    }

    /// Says of the page at an index whether it is fresh.
    pub fn set_fresh(&mut self, index: PageIndex, fresh: bool)
        requires { index < array_vec_len self.old.pages }
        ensures marked { MarksPage self.old self.new index fresh }
        ensures numbers { numbers_of self.new ≡ numbers_of self.old }
    {
        self.pages[index as usize].fresh = fresh;
    }
}
