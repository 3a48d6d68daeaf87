//! The slots of a page.

ghost use Rattle.std.specs.Prelude.{◌≡◌, ◌<◌, ℕ, Option, Some, None, IfSome, IfNone};
ghost use Rattle.sls_base.specs.declared.limits.TheConstants.{PAGES};
ghost use Rattle.pmem_model.specs.Memory.{word_at};
ghost use Rattle.pmem_layout.specs.Fields.{tag_word};
ghost use Rattle.pmem_layout.specs.Places as places;
ghost use Rattle.page_store.specs.Slots.{Slot, slot_frame, HasSlot, durable_words};
ghost use Rattle.page_store.specs.Format.{Is, PagesStand, frame_of, content_frame};

use pmem_layout::{Tag, backup_frame, backup_tag_at};
use pmem_model::Pmem;
use sls_base::{PAGES, PageNo, Version};

/// The frame of the slot with a page's content of this version, as durable words tell. It is None exactly where no slot
/// has the tag of the version: then the content is in the runtime frame.
#[tactic(auto, using(crate::proofs::Places::places))]
pub fn slot_of(nvm: &Pmem, page: PageNo, version: Version) -> Option<usize>
    requires { page < PAGES }
    ensures found { IfSome result (λ frame. (slot : Slot) × (frame ≡ slot_frame page slot)
        × HasSlot (durable_words (word_at nvm.now)) page slot version) }
    ensures none { IfNone result ((slot : Slot) → HasSlot (durable_words (word_at nvm.now)) page slot version → ⊥) }
    ensures content { (pages : ℕ → Option (ℕ → ℕ)) → PagesStand (durable_words (word_at nvm.now)) version pages
        → Is (pages page) (frame_of (durable_words (word_at nvm.now)) (content_frame page result)) }
{
    match Tag::from_word(nvm.durable(backup_tag_at(page))) {
        Tag::Of(tagged) if tagged == version => Some(backup_frame(page)),
        _ => None,
    }
}
