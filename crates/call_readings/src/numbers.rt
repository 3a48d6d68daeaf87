//! The numbers in use.

ghost use Rattle.std.specs.Prelude.{◌≡◌, ◌==◌, ◌||◌, ◌*◌, ◌<◌, ◌≤◌, ℕ, false, not, filter, find, length, slice_get, IfSome};
ghost use Rattle.std.specs.List.{range_with_len};
ghost use Rattle.sls_base.specs.declared.limits.TheConstants.{OBJECTS, PAGES};
ghost use Rattle.pmem_layout.specs.declared.places.TheConstants.{BASE_BITS};
ghost use Rattle.plain_model.specs.Worlds as worlds;
ghost use Rattle.plain_model.specs.Objects.{every_object, every_page};
ghost use Rattle.call_readings.specs.NumberSets as sets;

use pmem_layout::{BASE_BITS, is_in_base, with_bit};
use sls_base::{OBJECTS, ObjId, PAGES, PageNo};

/// The words that have a bit for each object.
const OBJECT_SET_WORDS: usize = OBJECTS / BASE_BITS;
/// The words that have a bit for each page.
const PAGE_SET_WORDS: usize = PAGES / BASE_BITS;

/// The numbers of objects and of pages that are in use, by the running state or by the saved one.
#[derive(Clone, Copy)]
pub struct NumbersInUse {
    pub objects: [u64; OBJECT_SET_WORDS],
    pub pages: [u64; PAGE_SET_WORDS],
}

/// Whether a number is in a set.
fn is_in(words: &[u64], number: usize) -> bool
    ensures { result ≡ sets.is_in words.now number }
{
    let word = words.get(number / BASE_BITS).copied().unwrap_or(0);
    is_in_base(word, (number % BASE_BITS) as u32)
}

/// Puts a number into a set.
fn insert(words: &mut [u64], number: usize)
    requires { number < BASE_BITS * length words.old }
    ensures members { (other : ℕ) → sets.is_in words.new other ≡ (sets.is_in words.old other || (other == number)) }
    ensures length { length words.new ≡ length words.old }
{
    let place = number / BASE_BITS;
    words[place] = with_bit(words[place], (number % BASE_BITS) as u32, true);
}

/// The least number that isn't in a set. It is None exactly where each of those that it can have is.
fn least_absent(words: &[u64]) -> Option<usize>
    requires few { length words.now ≤ PAGE_SET_WORDS }
    ensures range { IfSome result (λ number. number < BASE_BITS * length words.now) }
    ensures absent { IfSome result (λ number. sets.is_in words.now number ≡ false) }
    ensures least { result
        ≡ find (λ number. not (sets.is_in words.now number)) (range_with_len 0 (BASE_BITS * length words.now)) }
{
    for (place, word) in words.iter().enumerate() {
        if *word != u64::MAX {
            return Some(place * BASE_BITS + word.trailing_ones() as usize);
        }
    }
    None
}

/// How many numbers are not in a set.
fn count_of_absent(words: &[u64]) -> usize
    requires few { length words.now ≤ PAGE_SET_WORDS }
    ensures { result ≡ length (filter (λ number. not (sets.is_in words.now number))
        (range_with_len 0 (BASE_BITS * length words.now))) }
{
    let mut count = 0;
    for word in words {
        count += word.count_zeros() as usize;
    }
    count
}

impl NumbersInUse {
    ghost use Rattle.plain_model.specs.Worlds.{World};
    ghost use Rattle.call_readings.specs.NumberSets.{uses_object, uses_page};
    ghost use Rattle.call_readings.specs.Kernel.{IsCounted};

    /// No number is in use.
    pub fn new() -> Self
        ensures objects { (id : ℕ) → uses_object result id ≡ false }
        ensures pages { (page : ℕ) → uses_page result page ≡ false }
    {
        NumbersInUse {
            objects: [0; OBJECT_SET_WORDS],
            pages: [0; PAGE_SET_WORDS],
        }
    }

    /// Whether the number of an object is in use.
    pub fn uses_object(&self, id: ObjId) -> bool
        ensures { result ≡ uses_object self.now id }
    {
        is_in(&self.objects, usize::from(id))
    }

    /// Whether the number of a page is in use.
    pub fn uses_page(&self, page: PageNo) -> bool
        ensures { result ≡ uses_page self.now page }
    {
        is_in(&self.pages, usize::from(page))
    }

    /// Takes the number of an object into use.
    pub fn take_object(&mut self, id: ObjId)
        requires { id < OBJECTS }
        ensures objects { (other : ℕ) → uses_object self.new other ≡ (uses_object self.old other || (other == id)) }
        ensures pages { self.new.pages ≡ self.old.pages }
    {
        insert(&mut self.objects, usize::from(id));
    }

    /// Takes the number of a page into use.
    pub fn take_page(&mut self, page: PageNo)
        requires { page < PAGES }
        ensures objects { self.new.objects ≡ self.old.objects }
        ensures pages { (other : ℕ) → uses_page self.new other ≡ (uses_page self.old other || (other == page)) }
    {
        insert(&mut self.pages, usize::from(page));
    }

    /// The least number of an object that is free: the one that a new object gets. It is None exactly where all are in
    /// use.
    pub fn least_free_object(&self) -> Option<ObjId>
        ensures least { (w : World) → IsCounted self.now w → result ≡ slice_get (worlds.free_objects w) 0 }
        ensures first { result ≡ find (λ id. not (uses_object self.now id)) every_object }
        ensures range { IfSome result (λ id. id < OBJECTS) }
        ensures free { IfSome result (λ id. uses_object self.now id ≡ false) }
    {
        match least_absent(&self.objects) {
            Some(id) => Some(id as ObjId),
            None => None,
        }
    }

    /// The least number of a page that is free. It is None exactly where all are in use.
    pub fn least_free_page(&self) -> Option<PageNo>
        ensures least { (w : World) → IsCounted self.now w → result ≡ slice_get (worlds.free_pages w) 0 }
        ensures first { result ≡ find (λ page. not (uses_page self.now page)) every_page }
        ensures range { IfSome result (λ page. page < PAGES) }
        ensures free { IfSome result (λ page. uses_page self.now page ≡ false) }
    {
        match least_absent(&self.pages) {
            Some(page) => Some(page as PageNo),
            None => None,
        }
    }

    /// How many numbers of pages are free.
    pub fn free_page_count(&self) -> usize
        ensures { (w : World) → IsCounted self.now w → result ≡ length (worlds.free_pages w) }
    {
        count_of_absent(&self.pages)
    }
}
