//! The record of a ring.

ghost use Rattle.std.specs.Prelude.{◌≡◌, ◌+◌, ◌<◌, ◌↔◌, IsTrue, ℕ, slice_index};
ghost use Rattle.sls_base.specs.declared.thread.Ring.{Ring};
ghost use Rattle.kobj_codec.specs.declared.obj.Obj.TheVariants as objs;
ghost use Rattle.kobj_codec.specs.Objects.{IsRing};
ghost use Rattle.kobj_codec.specs.Records as records;
ghost use Rattle.kobj_codec.specs.Records.{IsRecord};

use crate::kinds::RING_KIND;
use pmem_layout::{SLOT_WORDS, bits};
use sls_base::{OUTPUT_CHANNELS, PAGES, PageNo, Ring};

/// The bits of a page.
const PAGE_BITS: u32 = 16;

/// Whether a ring has a record.
pub fn is_ring(ring: &Ring) -> bool
    ensures { IsTrue result ↔ IsRing ring.now }
{
    let Ring {
        channel,
        fresh,
        count,
        page,
    } = *ring;
    let is_output = usize::from(channel) < OUTPUT_CHANNELS;
    let is_input = usize::from(channel) == OUTPUT_CHANNELS && !fresh && count == 0 && page == 0;
    usize::from(page) < PAGES && (is_output || is_input)
}

/// Word 0 of a ring's record.
pub fn ring_head(ring: &Ring) -> u64
    ensures { result ≡ records.head_word (objs.Ring ring.now) }
{
    u64::from_le_bytes([RING_KIND, ring.channel, u8::from(ring.fresh), 0, 0, 0, 0, 0])
}

/// Word i + 1 of a ring's record.
pub fn ring_word(ring: &Ring, i: usize) -> u64
    ensures { result ≡ records.word_behind (objs.Ring ring.now) i }
{
    match i {
        0 => ring.count,
        1 => u64::from(ring.page),
        _ => 0,
    }
}

/// The ring of a record.
pub fn read_ring(words: &[u64; SLOT_WORDS]) -> Ring
    ensures { (ring : Ring) → IsRing ring → IsRecord (slice_index words.now) (objs.Ring ring) → result ≡ ring }
{
    let [_, channel, mark, _, _, _, _, _] = words[0].to_le_bytes();
    Ring {
        channel,
        fresh: mark == 1,
        count: words[1],
        page: bits(words[2], 0, PAGE_BITS) as PageNo,
    }
}
