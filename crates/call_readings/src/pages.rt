//! The pages on which bytes stand.

ghost use Rattle.std.specs.Prelude.{◌≡◌, ◌≢◌, ◌+◌, ◌<◌, ◌≤◌, ◌==◌, ◌||◌, ℕ, AllPairs, option_map};
ghost use Rattle.arrayvec.specs.ArrayVec.{array_vec_len};
ghost use Rattle.sls_base.specs.declared.limits.TheConstants.{PAGE_BYTES};
ghost use Rattle.plain_model.specs.Objects.{regions_of};
ghost use Rattle.plain_model.specs.Memory as memory;
ghost use Rattle.plain_model.specs.Memory.{place_in, place_of, places_of};
ghost use Rattle.kobj_table.specs.Slots.{page_of, region_of};
ghost use Rattle.kobj_table.specs.Objects.{object_at};
ghost use Rattle.call_readings.specs.Reach.{is_any_on};
ghost use Rattle.call_readings.specs.Need.{has_page};

use crate::regions::region_at;
use arrayvec::ArrayVec;
use kobj_table::{Objects, Slot};
use mem_space::{MemPage, Region};
use plain_model::Span;
use sls_base::{ObjId, PAGE_BYTES, PAGES, PageNo};

/// What is read where a memory object has no page: it is zero, and its number is no page's.
const NO_PAGE: MemPage = MemPage {
    page: PAGES as PageNo,
    fresh: true,
};

/// The page on which the byte at an address stands that a region covers.
fn page_in(objects: &Objects, region: &Region, at: u64) -> MemPage
    ensures { (content : ℕ → ℕ → ℕ) → page_of content result
        ≡ memory.page_at (object_at content objects.now) (place_in at (region_of region.now)) }
{
    let before = (at / PAGE_BYTES as u64).saturating_sub(u64::from(region.base));
    let index = u64::from(region.first) + before;
    match objects.slot(region.memory) {
        Some(Slot::Memory(memory)) => memory.pages.get(index as usize).copied().unwrap_or(NO_PAGE),
        _ => NO_PAGE,
    }
}

/// The page on which the byte at an address stands, by the first region of a space that covers the address with a
/// right.
pub fn page_at(objects: &Objects, space: ObjId, right: u8, at: u64) -> Option<MemPage>
    ensures { (content : ℕ → ℕ → ℕ) → option_map (page_of content) result
        ≡ option_map (memory.page_at (object_at content objects.now))
        (place_of (regions_of (object_at content objects.now space)) right at) }
{
    match region_at(objects, space, right, at) {
        Some(region) => Some(page_in(objects, &region, at)),
        None => None,
    }
}

/// Adds a page to a list, unless it is there.
pub(crate) fn add_page<const N: usize>(pages: &mut ArrayVec<PageNo, N>, page: PageNo)
    requires { array_vec_len pages.old < N }
    ensures members { (other : ℕ) → has_page pages.new.items other
        ≡ (has_page pages.old.items other || (page == other)) }
    ensures once { AllPairs (λ p q. p ≢ q) pages.old.items → AllPairs (λ p q. p ≢ q) pages.new.items }
    ensures length { array_vec_len pages.new ≤ array_vec_len pages.old + 1 }
{
    if !pages.iter().any(|other| *other == page) {
        pages.push(page);
    }
}

/// Adds the page on which the byte at an address stands, if there is one.
fn add_page_at<const N: usize>(
    pages: &mut ArrayVec<PageNo, N>,
    objects: &Objects,
    space: ObjId,
    right: u8,
    at: u64,
)
    requires { array_vec_len pages.old < N }
    ensures members { (content : ℕ → ℕ → ℕ) (page : ℕ) → has_page pages.new.items page
        ≡ (has_page pages.old.items page || is_any_on (object_at content objects.now)
        (places_of (regions_of (object_at content objects.now space)) right at 1) page) }
    ensures once { AllPairs (λ p q. p ≢ q) pages.old.items → AllPairs (λ p q. p ≢ q) pages.new.items }
    ensures length { array_vec_len pages.new ≤ array_vec_len pages.old + 1 }
{
    if let Some(page) = page_at(objects, space, right, at) {
        add_page(pages, page.page);
    }
}

/// Adds the pages on which the bytes of a span stand. They are at most two, since the span has at most a page's bytes.
pub(crate) fn add_span<const N: usize>(
    pages: &mut ArrayVec<PageNo, N>,
    objects: &Objects,
    space: ObjId,
    right: u8,
    span: Span,
)
    requires { array_vec_len pages.old + 2 ≤ N }
    ensures members { (content : ℕ → ℕ → ℕ) (page : ℕ) → span.count ≤ PAGE_BYTES → has_page pages.new.items page
        ≡ (has_page pages.old.items page || is_any_on (object_at content objects.now)
        (places_of (regions_of (object_at content objects.now space)) right span.at span.count) page) }
    ensures once { AllPairs (λ p q. p ≢ q) pages.old.items → AllPairs (λ p q. p ≢ q) pages.new.items }
    ensures length { array_vec_len pages.new ≤ array_vec_len pages.old + 2 }
{
    if span.count == 0 {
        return;
    }
    let first = u64::from(span.at);
    let last = first + u64::from(span.count - 1);
    add_page_at(pages, objects, space, right, first);
    add_page_at(pages, objects, space, right, last);
}
