//! Hot words.

ghost use Rattle.std.specs.Prelude.{◌≡◌, Some, IfSome};

use crate::field::bits;
use crate::tag::Tag;
use sls_base::{PAGES, PageNo};

/// The bits below the tag.
const PAGE_BITS: u32 = 16;
/// The bit that tells a hot word from an empty one.
const HOT_MARK: u64 = 0x8000;

/// What the hot word of a spare tells: the page that the spare is given to, and the tag of what stands in its frame.
#[derive(Clone, Copy, PartialEq, Eq, Debug)]
pub struct HotWord {
    pub tag: Tag,
    pub page: PageNo,
}

impl HotWord {
    ghost use Rattle.pmem_layout.specs.declared.hot.HotWord.{HotWord};
    ghost use Rattle.pmem_layout.specs.Fields.{hot_word, IsHotWord};

    /// The hot word of a spare that is given to a page.
    pub fn to_word(self) -> u64
        requires { IsHotWord self }
        ensures { result ≡ hot_word self }
    {
        (self.tag.to_word() << PAGE_BITS) + HOT_MARK + u64::from(self.page)
    }

    /// What a hot word tells. It is None exactly for a word that is no hot word, as the empty one.
    pub fn from_word(word: u64) -> Option<HotWord>
        ensures found { IfSome result (λ hot. IsHotWord hot × (hot_word hot ≡ word)) }
        ensures only { (hot : HotWord) → IsHotWord hot → hot_word hot ≡ word → result ≡ Some hot }
    {
        let page = bits(word, 0, PAGE_BITS).checked_sub(HOT_MARK)?;
        if page >= PAGES as u64 {
            return None;
        }
        Some(HotWord {
            tag: Tag::from_word(word >> PAGE_BITS),
            page: page as PageNo,
        })
    }
}
