//! Pages.

ghost use Rattle.std.specs.Prelude.{◌≡◌, length};
ghost use Rattle.sls_base.specs.declared.limits.TheConstants.{PAGE_BYTES};

use sls_base::{PAGE_BYTES, PageNo};
use std::alloc::{AllocError, Global};

/// The bytes of a page, as addresses are counted.
pub const PAGE: u64 = PAGE_BYTES as u64;

/// A page: its number and its 4,096 bytes.
#[derive(Drop)]
pub struct Page {
    pub number: PageNo,
    pub bytes: Vec<u8>,
    ghost sized: { length bytes.items ≡ PAGE_BYTES },
}

impl Page {
    ghost use Rattle.std.specs.Prelude.{IfOk};
    ghost use Rattle.plain_state.specs.Objects.{new_page};
    ghost use Rattle.plain_state.specs.Slow.{page_of};

    /// A page that is zero.
    pub fn zero(alloc: Global, number: PageNo) -> Result<Page, AllocError>
        ensures { IfOk result (λ page. page_of page ≡ new_page number) }
    {
        Ok(Page {
            number,
            bytes: vec![in alloc; 0; PAGE_BYTES]?,
        })
    }

    /// A copy of the page.
    pub fn copy(&self, alloc: Global) -> Result<Page, AllocError>
        ensures { IfOk result (λ page. page_of page ≡ page_of self.now) }
    {
        Ok(Page {
            number: self.number,
            bytes: Vec::from_slice(alloc, self.bytes.as_slice())?,
        })
    }

    /// The byte at a place of the page.
    pub fn byte(&self, at: u32) -> u8
        ensures { result ≡ (page_of self.now).byte at }
    {
        self.bytes.get(at as usize).copied().unwrap_or(0)
    }
}
