//! Tags.

ghost use Rattle.std.specs.Prelude.{◌≡◌, ◌+◌, ◌<◌, ◌≤◌, ◌^◌, ◌↔◌, ℕ, Some, IfSome, IsNone, IsTrue};

use crate::format::EMPTY_WORD;
use sls_base::Version;

/// The tag of a slot: the version that what stands there is of. Where nothing stands that is read, there is none.
#[derive(Clone, Copy, PartialEq, Eq, Debug)]
pub enum Tag {
    Empty,
    Of(Version),
}

impl Tag {
    ghost use Rattle.pmem_layout.specs.declared.tag.Tag.{Tag};
    ghost use Rattle.pmem_layout.specs.declared.tag.Tag.TheVariants.{Of};
    ghost use Rattle.pmem_layout.specs.Fields.{tag_word, IsTag, TagUpTo};

    /// The word of a tag.
    pub fn to_word(self) -> u64
        requires { IsTag self }
        ensures { result ≡ tag_word self }
    {
        match self {
            Tag::Empty => EMPTY_WORD,
            Tag::Of(version) => version + 1,
        }
    }

    /// The tag of a word. Every word is a tag's.
    pub fn from_word(word: u64) -> Tag
        ensures in_form { IsTag result }
        ensures read { tag_word result ≡ word }
        ensures only { (tag : Tag) → tag_word tag ≡ word → result ≡ tag }
    {
        if word == EMPTY_WORD {
            Tag::Empty
        } else {
            Tag::Of(word - 1)
        }
    }

    /// The version of a tag, where it is this one or an earlier one.
    pub fn up_to(self, version: Version) -> Option<Version>
        ensures found { IfSome result (λ tagged. (self ≡ Of tagged) × (tagged ≤ version)) }
        ensures only { (tagged : ℕ) → self ≡ Of tagged → tagged ≤ version → result ≡ Some tagged }
        ensures none { IsNone result ↔ (TagUpTo (tag_word self) version → ⊥) }
    {
        match self {
            Tag::Of(tagged) if tagged <= version => Some(tagged),
            _ => None,
        }
    }

    /// Whether it is the tag of a later version.
    pub fn is_above(self, version: Version) -> bool
        ensures { IsTrue result ↔ (version + 1 < tag_word self) }
    {
        match self {
            Tag::Empty => false,
            Tag::Of(tagged) => version < tagged,
        }
    }
}
