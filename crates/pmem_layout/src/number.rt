//! The numbers of objects and pages, in one row.

ghost use Rattle.std.specs.Prelude.{◌≡◌, ◌<◌, ◌≤◌, ◌+◌, ◌↔◌, ℕ, Some, IfSome, IsNone};

use crate::places::{BASE_BITS, NUMBERS, OBJECT_BASE_AT, PAGE_BASE_END};
use sls_base::{OBJECTS, ObjId, PageNo};

/// The number of an object or of a page, which may be in use.
#[derive(Clone, Copy, PartialEq, Eq, Debug)]
pub enum Number {
    Object(ObjId),
    Page(PageNo),
}

/// A bit of the allocation base.
#[derive(Clone, Copy, PartialEq, Eq, Debug)]
pub struct BaseBit {
    /// The place of its word.
    pub word: usize,
    /// The bit's number in the word.
    pub bit: u32,
}

impl Number {
    ghost use Rattle.pmem_layout.specs.declared.number.Number.{Number};
    ghost use Rattle.pmem_layout.specs.Numbers.{IsNumber, index_of};
    ghost use Rattle.pmem_layout.specs.Numbers as numbers;

    /// The number's index among all numbers, of which those of objects come first.
    pub fn index(self) -> usize
        requires { IsNumber self }
        ensures index { result ≡ index_of self }
        ensures in_range { result < NUMBERS }
    {
        match self {
            Number::Object(id) => id as usize,
            Number::Page(page) => OBJECTS + page as usize,
        }
    }

    /// The number at an index. It is None exactly where there is no such number.
    pub fn from_index(index: usize) -> Option<Number>
        ensures found { IfSome result (λ number. IsNumber number × (index_of number ≡ index)) }
        ensures only { (number : Number) → IsNumber number → index_of number ≡ index → result ≡ Some number }
        ensures none { IsNone result ↔ (NUMBERS ≤ index) }
    {
        if index < OBJECTS {
            Some(Number::Object(index as ObjId))
        } else if index < NUMBERS {
            Some(Number::Page((index - OBJECTS) as PageNo))
        } else {
            None
        }
    }

    /// The bit of the allocation base that tells whether the number is in use.
    pub fn base_bit(self) -> BaseBit
        requires { IsNumber self }
        ensures word { result.word ≡ numbers.base_at (index_of self) }
        ensures bit { result.bit ≡ numbers.base_bit (index_of self) }
        ensures in_base { (OBJECT_BASE_AT ≤ result.word) × (result.word < PAGE_BASE_END) }
        ensures in_word { result.bit < BASE_BITS }
    {
        let index = self.index();
        BaseBit {
            word: OBJECT_BASE_AT + index / BASE_BITS,
            bit: (index % BASE_BITS) as u32,
        }
    }
}
