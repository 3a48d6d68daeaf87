//! Entries on the pages of a memory whose words are all alike. A word whose cached value isn't its durable one was
//! stored.

ghost use Rattle.std.specs.Prelude.{◌≡◌, ◌<◌, IsTrue, true};
ghost use Rattle.call_readings.specs.Content.{is_page_home};

use super::*;
use mem_space::MemPage;
use page_bytes::byte_on_page;
use pmem_layout::runtime_frame;
use pmem_model::Pmem;
use sls_base::{ENTRY_BYTES, Entry, OUTPUT_CHANNELS, PageNo, WORDS};
use std::alloc::{AllocError, Global};
use std::test::Fail;

/// What each word is before.
const WORD: u64 = 0x8877_6655_4433_2211;

const BYTES: [u8; ENTRY_BYTES] = *b"abcdefghijklmnopqrstuvwxyzABCDEFGHIJKLMNOPQRSTUVWXYZ0123";

fn filled(alloc: Global) -> Result<Pmem, AllocError> {
    let words = vec![in alloc; WORD; WORDS]?;
    Pmem::from_words(alloc, &words)
}

fn is_there(nvm: &Pmem, channel: u8) -> bool
    ensures { IsTrue result → (channel < OUTPUT_CHANNELS) × (is_page_home nvm.now channel ≡ true) }
{
    usize::from(channel) < OUTPUT_CHANNELS && nvm.is_home(runtime_frame(PageNo::from(channel)))
}

/// Puts an entry and reads it again, where it can be put.
fn put(nvm: &mut Pmem, channel: u8, number: u64, bytes: &[u8]) -> Option<Entry> {
    if bytes.is_empty() || bytes.len() > ENTRY_BYTES || !is_there(nvm, channel) {
        return None;
    }
    place(nvm, channel, number, bytes);
    Some(offer(nvm, channel, number))
}

/// The bytes of a place, where the page of its channel is at home.
fn bytes_in_place(nvm: &Pmem, channel: u8, number: u64) -> [u8; PLACE_BYTES] {
    let mut bytes = [0; PLACE_BYTES];
    if is_there(nvm, channel) {
        let page = MemPage {
            page: PageNo::from(channel),
            fresh: false,
        };
        let at = 64 * (number % 64) as u32;
        for k in 0..64 {
            bytes[k as usize] = byte_on_page(nvm, page, at + k);
        }
    }
    bytes
}

#[test]
fn an_entry_is_offered_as_it_was_put(rt: HostRuntime) -> Result<(), Fail> {
    let mut nvm = filled(rt.alloc())?;
    for number in [0, 1, 63, 64, 1_000_000, u64::MAX] {
        for channel in 0..4 {
            for entry in [&BYTES[..1], &BYTES[..7], &BYTES[..8], &BYTES[..9], &BYTES] {
                let offered = put(&mut nvm, channel, number, entry).ok_or("no entry")?;
                assert_eq!(rt; offered.number, number);
                assert_eq!(rt; offered.bytes.as_slice(), entry);
            }
        }
    }
    assert_eq!(rt; nvm.ops(), 120);
    Ok(())
}

#[test]
fn an_entry_of_one_byte_has_zeros_behind(rt: HostRuntime) -> Result<(), Fail> {
    let mut nvm = filled(rt.alloc())?;
    let _ = put(&mut nvm, 2, 5, &[0xAB]);
    let mut expected = [0; PLACE_BYTES];
    expected[0] = 1;
    expected[8] = 0xAB;
    assert_eq!(rt; bytes_in_place(&nvm, 2, 5), expected);
    assert_eq!(rt; nvm.dirty_from(0), Some(20_008));
    assert_eq!(rt; nvm.dirty_from(20_016), None);
    assert_eq!(rt; nvm.ops(), 1);
    Ok(())
}

#[test]
fn an_entry_of_56_bytes_fills_its_place(rt: HostRuntime) -> Result<(), Fail> {
    let mut nvm = filled(rt.alloc())?;
    let _ = put(&mut nvm, 3, 63, &[7; ENTRY_BYTES]);
    let mut expected = [7; PLACE_BYTES];
    expected[..8].copy_from_slice(&[56, 0, 0, 0, 0, 0, 0, 0]);
    assert_eq!(rt; bytes_in_place(&nvm, 3, 63), expected);
    assert_eq!(rt; nvm.dirty_from(0), Some(21_496));
    assert_eq!(rt; nvm.dirty_from(21_504), None);
    Ok(())
}

#[test]
fn entry_64_stands_where_entry_0_stood_and_the_others_stay(rt: HostRuntime) -> Result<(), Fail> {
    let mut nvm = filled(rt.alloc())?;
    for number in 0..64_u8 {
        let _ = put(&mut nvm, 1, u64::from(number), &[number, 0xFF]);
    }
    let _ = put(&mut nvm, 1, 64, &[0x99]);
    let mut expected = [0; PLACE_BYTES];
    expected[0] = 1;
    expected[8] = 0x99;
    assert_eq!(rt; bytes_in_place(&nvm, 1, 0), expected);
    for number in 1..64_u8 {
        let mut expected = [0; PLACE_BYTES];
        expected[0] = 2;
        expected[8] = number;
        expected[9] = 0xFF;
        assert_eq!(rt; bytes_in_place(&nvm, 1, u64::from(number)), expected);
    }
    Ok(())
}

#[test]
fn each_channel_has_a_page_of_its_own(rt: HostRuntime) -> Result<(), Fail> {
    for (channel, at) in [(0, 17_920), (1, 18_944), (2, 19_968), (3, 20_992)] {
        let mut nvm = filled(rt.alloc())?;
        let _ = put(&mut nvm, channel, 0, &[channel]);
        assert_eq!(rt; nvm.dirty_from(0), Some(at));
        assert_eq!(rt; nvm.dirty_from(at + 8), None);
    }
    Ok(())
}
