//! The words that formatting stores.

ghost use Rattle.std.specs.Prelude.{◌≡◌, ℕ, ◌+◌, ◌*◌, ◌<◌, ◌≤◌, is_some, slice_index};
ghost use Rattle.sls_base.specs.declared.image.Image.{Image};
ghost use Rattle.object_records.specs.Records as records;
ghost use Rattle.first_format.specs.Parts.{first_parts, first_numbers, page_word};
ghost use Rattle.first_format.specs.Formatted as formatted;
ghost use Rattle.first_format.specs.Formatted.{content_word};
ghost use Rattle.first_format.specs.Shows.{IsBegun};

use crate::formatting::Formatting;
use first_state::{WORD_BYTES, content_on, word_from};
use object_records::record_at;
use pmem_layout::{
    BASE_BITS, CORES_AT, EMPTY_WORD, NUMBERS, OBJECT_BASE_AT, PAGE_BASE_END, SLOTS, Tag,
};
use sls_base::{Image as FirstImage, OBJECTS, ObjId, PAGE_WORDS, PAGES, PageNo};

/// The words of the head: the number of cores, and the allocation base, with nothing between them.
pub const HEAD_WORDS: usize = PAGE_BASE_END - CORES_AT;
/// The tags of the slots of all objects.
pub const TAGS: usize = SLOTS * OBJECTS;

impl Formatting {
    /// Whether there is an object of this number.
    fn has_object(&self, id: ObjId) -> bool
        ensures { result ≡ is_some (records.record_at self.now.objects id) }
    {
        record_at(&self.objects, id).is_some()
    }

    /// Whether a number is in use, of those of objects and of pages.
    fn is_used(&self, number: usize) -> bool
        requires { number < NUMBERS }
        ensures { (image : Image) → IsBegun self.now image → result ≡ first_numbers image self.now.cores number }
    {
        if number < OBJECTS {
            self.has_object(number as ObjId)
        } else {
            number - OBJECTS < usize::from(self.pages)
        }
    }

    /// Word k of the allocation base.
    fn base_word(&self, k: usize) -> u64
        requires { BASE_BITS * k + BASE_BITS ≤ NUMBERS }
        ensures { (image : Image) → IsBegun self.now image
            → result ≡ formatted.base_word (first_numbers image self.now.cores) k }
    {
        let mut word = 0;
        for bit in 0..BASE_BITS {
            if self.is_used(BASE_BITS * k + bit) {
                word += 1 << bit;
            }
        }
        word
    }

    /// The word at a place of the head.
    fn head_word(&self, at: usize) -> u64
        requires from { CORES_AT ≤ at }
        requires below { at < PAGE_BASE_END }
        ensures { (image : Image) → IsBegun self.now image
            → result ≡ content_word (first_parts image self.now.cores) at }
    {
        if at == CORES_AT {
            u64::from(self.cores)
        } else if at < OBJECT_BASE_AT {
            EMPTY_WORD
        } else {
            self.base_word(at - OBJECT_BASE_AT)
        }
    }

    /// The words of the head.
    pub fn head_words(&self) -> [u64; HEAD_WORDS]
        ensures { (image : Image) → IsBegun self.now image → (j : ℕ) → j < HEAD_WORDS
            → slice_index result j ≡ content_word (first_parts image self.now.cores) (CORES_AT + j) }
    {
        let mut words = [EMPTY_WORD; HEAD_WORDS];
        for j in 0..HEAD_WORDS {
            words[j] = self.head_word(CORES_AT + j);
        }
        words
    }

    /// The word of the tag of slot k mod 2 of object k div 2.
    fn tag_word(&self, k: usize) -> u64
        requires { k < TAGS }
        ensures { (image : Image) → IsBegun self.now image
            → result ≡ formatted.object_tag (first_parts image self.now.cores).objects k }
    {
        if k % SLOTS == 0 && self.has_object((k / SLOTS) as ObjId) {
            Tag::Of(0).to_word()
        } else {
            EMPTY_WORD
        }
    }

    /// The words of the tags of all slots.
    pub fn tag_words(&self) -> [u64; TAGS]
        ensures { (image : Image) → IsBegun self.now image → (j : ℕ) → j < TAGS
            → slice_index result j ≡ formatted.object_tag (first_parts image self.now.cores).objects j }
    {
        let mut words = [EMPTY_WORD; TAGS];
        for k in 0..TAGS {
            words[k] = self.tag_word(k);
        }
        words
    }
}

/// The words of a page of the image.
pub fn page_words(image: &FirstImage, page: PageNo) -> [u64; PAGE_WORDS]
    requires { page < PAGES }
    ensures { (j : ℕ) → j < PAGE_WORDS → slice_index result j ≡ page_word image.now page j }
{
    let content = content_on(image, page);
    let mut words = [EMPTY_WORD; PAGE_WORDS];
    for j in 0..PAGE_WORDS {
        words[j] = word_from(content, WORD_BYTES * j);
    }
    words
}
