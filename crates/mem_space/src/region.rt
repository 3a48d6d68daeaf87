//! Regions.

ghost use Rattle.std.specs.Prelude.{◌≡◌, ◌+◌, ◌-◌, ◌^◌, ◌<◌, ◌≤◌};
ghost use Rattle.mem_space.specs.Region as regions;

use crate::PageIndex;
use sls_base::{ObjId, PAGE_BYTES, has_rights};

/// Pages of a memory object at addresses of a space: `count` pages of the object `memory`, of which the first has the
/// index `first`, stand from page `base` of the addresses on. Address 4096 is page 1. The rights are a set.
#[derive(Clone, Copy, Default)]
pub struct Region {
    pub base: u32,
    pub count: PageIndex,
    pub first: PageIndex,
    pub memory: ObjId,
    pub rights: u8,
}

impl Region {
    /// Whether it has every one of these rights and covers a byte address.
    pub(crate) fn covers_with(&self, at: u32, right: u8) -> bool
        ensures { result ≡ regions.covers_with at right self.now }
    {
        has_rights(self.rights, right) && self.has_page(at / PAGE_BYTES as u32)
    }

    /// Whether one of its pages is among the `count` from `base` on.
    pub(crate) fn shares_pages(&self, base: u32, count: PageIndex) -> bool
        ensures { result ≡ regions.shares_pages base count self.now }
    {
        let start = self.base.max(base);
        u64::from(start) < self.end().min(u64::from(base) + u64::from(count))
    }

    /// Whether a page of the addresses is one of its pages.
    fn has_page(&self, page: u32) -> bool
        ensures { result ≡ regions.has_page page self.now }
    {
        self.base <= page && u64::from(page) < self.end()
    }

    /// The page behind its last one.
    fn end(&self) -> u64
        ensures { result ≡ self.now.base + self.now.count }
    {
        u64::from(self.base) + u64::from(self.count)
    }
}
