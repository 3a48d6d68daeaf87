//! Stores to pages of a memory whose words are all alike. A word whose cached value isn't its durable one was stored.

ghost use Rattle.std.specs.Prelude.{◌≡◌, ◌<◌, ◌≤◌, IfOk, IsTrue, true};
ghost use Rattle.sls_base.specs.declared.limits.TheConstants.{ENTRY_BYTES};
ghost use Rattle.pmem_model.specs.Memory.{AllHome};
ghost use Rattle.call_readings.specs.Content.{is_page_home};

use super::*;
use arrayvec::ArrayVec;
use call_readings::number_on_page;
use kobj_table::{Objects, Slot};
use mem_space::{MemPage, Memory, Region, Space};
use pmem_layout::runtime_frame;
use pmem_model::Pmem;
use sls_base::{ObjId, PAGE_BYTES, PAGES, PageNo, READ, WORDS, WRITE};
use std::alloc::{AllocError, Global};
use std::test::Fail;

/// What each word is before.
const WORD: u64 = 0x8877_6655_4433_2211;

const LOW: u32 = 0x4433_2211;

const HIGH: u32 = 0x8877_6655;

const PAGE: PageNo = 7;

/// Where the words of its runtime frame begin.
const PAGE_AT: usize = 25_088;

const LAST_PAGE: PageNo = 511;

const LAST_PAGE_AT: usize = 541_184;

const SPACE: ObjId = 7;

const MEMORY: ObjId = 8;

fn filled(alloc: Global) -> Result<Pmem, AllocError>
    ensures { IfOk result AllHome }
{
    let words = vec![in alloc; WORD; WORDS]?;
    Pmem::from_words(alloc, &words)
}

fn is_there(nvm: &Pmem, page: PageNo) -> bool
    ensures { IsTrue result → (page < PAGES) × (is_page_home nvm.now page ≡ true) }
{
    usize::from(page) < PAGES && nvm.is_home(runtime_frame(page))
}

/// Stores a number, where it can be stored.
fn store(nvm: &mut Pmem, page: PageNo, offset: u32, size: u32, value: u32) {
    let fits = (1..=4).contains(&size) && offset < PAGE_BYTES as u32 && offset % 8 + size <= 8;
    if fits && is_there(nvm, page) {
        store_number(nvm, page, offset, size, value);
    }
}

/// Stores bytes, where they can be stored.
fn put(nvm: &mut Pmem, page: PageNo, offset: u32, bytes: &[u8])
    ensures { AllHome nvm.old → AllHome nvm.new }
{
    let fits = !bytes.is_empty()
        && bytes.len() <= MOST_BYTES
        && (offset as usize).saturating_add(bytes.len()) <= PAGE_BYTES;
    if fits && is_there(nvm, page) {
        store_bytes(nvm, page, offset, bytes);
    }
}

/// The number in four bytes of a page, which stand in one word.
fn number(nvm: &Pmem, page: PageNo, offset: u32) -> Option<u32> {
    if offset < PAGE_BYTES as u32 && is_there(nvm, page) {
        let page = MemPage { page, fresh: false };
        Some(number_on_page(nvm, page, offset, 4))
    } else {
        None
    }
}

/// Objects with a space that may read three pages from address 4,096 on, of which the last is fresh.
fn objects() -> Objects {
    let mut space = Space::new();
    space.regions.push(Region {
        base: 1,
        count: 3,
        first: 0,
        memory: MEMORY,
        rights: READ,
    });
    let mut memory = Memory::new();
    for (page, fresh) in [(PAGE, false), (LAST_PAGE, false), (9, true)] {
        if !memory.pages.is_full() {
            memory.pages.push(MemPage { page, fresh });
        }
    }
    let mut objects = Objects::new();
    objects.put(SPACE, Slot::Space(space));
    objects.put(MEMORY, Slot::Memory(memory));
    objects
}

/// Bytes that the space has at an address.
fn load(objects: &Objects, nvm: &Pmem, right: u8, at: u32, count: u32) -> Option<ArrayVec<u8, 56>>
    requires count { count ≤ ENTRY_BYTES }
    requires home { AllHome nvm.now }
{
    bytes_at(objects, nvm, SPACE, right, at, count)
}

#[test]
fn bytes_are_loaded_over_the_end_of_a_page(rt: HostRuntime) -> Result<(), Fail> {
    let mut nvm = filled(rt.alloc())?;
    let objects = objects();
    put(&mut nvm, PAGE, 4_094, &[1, 2]);
    put(&mut nvm, LAST_PAGE, 0, &[3, 4]);
    let bytes = load(&objects, &nvm, READ, 8_189, 6).ok_or("no bytes")?;
    assert_eq!(rt; bytes.as_slice(), [0x66, 1, 2, 3, 4, 0x33].as_slice());
    let bytes = load(&objects, &nvm, READ, 12_287, 2).ok_or("no bytes")?;
    assert_eq!(rt; bytes.as_slice(), [0x88, 0].as_slice());
    let bytes = load(&objects, &nvm, READ, 0, 0).ok_or("no bytes")?;
    assert!(rt; bytes.is_empty());
    assert!(rt; load(&objects, &nvm, READ, 4_095, 2).is_none());
    assert!(rt; load(&objects, &nvm, READ, 16_383, 2).is_none());
    assert!(rt; load(&objects, &nvm, READ, u32::MAX, 2).is_none());
    assert!(rt; load(&objects, &nvm, WRITE, 8_189, 6).is_none());
    Ok(())
}

#[test]
fn a_number_changes_its_own_bytes_and_no_others(rt: HostRuntime) -> Result<(), Fail> {
    for (offset, size, low, high) in [
        (0, 1, 0x4433_22AA, HIGH),
        (3, 1, 0xAA33_2211, HIGH),
        (4, 1, LOW, 0x8877_66AA),
        (7, 1, LOW, 0xAA77_6655),
        (2, 2, 0xBBAA_2211, HIGH),
        (6, 2, LOW, 0xBBAA_6655),
        (0, 4, 0xDDCC_BBAA, HIGH),
        (4, 4, LOW, 0xDDCC_BBAA),
    ] {
        let mut nvm = filled(rt.alloc())?;
        store(&mut nvm, PAGE, 24 + offset, size, 0xDDCC_BBAA);
        assert_eq!(rt; number(&nvm, PAGE, 24), Some(low));
        assert_eq!(rt; number(&nvm, PAGE, 28), Some(high));
        assert_eq!(rt; nvm.dirty_from(0), Some(PAGE_AT + 3));
        assert_eq!(rt; nvm.dirty_from(PAGE_AT + 4), None);
        assert_eq!(rt; nvm.ops(), 1);
    }
    Ok(())
}

#[test]
fn bytes_over_words_leave_those_beside_them(rt: HostRuntime) -> Result<(), Fail> {
    let mut nvm = filled(rt.alloc())?;
    put(&mut nvm, PAGE, 5, &[1, 2, 3, 4, 5, 6, 7, 8, 9, 10, 11, 12]);
    for (offset, expected) in [
        (0, LOW),
        (4, 0x0302_0155),
        (8, 0x0706_0504),
        (12, 0x0B0A_0908),
        (16, 0x4433_220C),
        (20, HIGH),
    ] {
        assert_eq!(rt; number(&nvm, PAGE, offset), Some(expected));
    }
    assert_eq!(rt; nvm.dirty_from(0), Some(PAGE_AT));
    assert_eq!(rt; nvm.dirty_from(PAGE_AT + 2), Some(PAGE_AT + 2));
    assert_eq!(rt; nvm.dirty_from(PAGE_AT + 3), None);
    assert_eq!(rt; nvm.ops(), 1);
    Ok(())
}

#[test]
fn an_entry_takes_eight_words_and_nine_at_an_odd_offset(rt: HostRuntime) -> Result<(), Fail> {
    let mut nvm = filled(rt.alloc())?;
    put(&mut nvm, PAGE, 4_032, &[7; 64]);
    assert_eq!(rt; number(&nvm, PAGE, 4_028), Some(HIGH));
    assert_eq!(rt; number(&nvm, PAGE, 4_032), Some(0x0707_0707));
    assert_eq!(rt; number(&nvm, PAGE, 4_092), Some(0x0707_0707));
    assert_eq!(rt; nvm.dirty_from(0), Some(PAGE_AT + 504));
    assert_eq!(rt; nvm.dirty_from(PAGE_AT + 512), None);

    let mut nvm = filled(rt.alloc())?;
    put(&mut nvm, PAGE, 1, &[7; 64]);
    assert_eq!(rt; number(&nvm, PAGE, 0), Some(0x0707_0711));
    assert_eq!(rt; number(&nvm, PAGE, 60), Some(0x0707_0707));
    assert_eq!(rt; number(&nvm, PAGE, 64), Some(0x4433_2207));
    assert_eq!(rt; nvm.dirty_from(PAGE_AT + 8), Some(PAGE_AT + 8));
    assert_eq!(rt; nvm.dirty_from(PAGE_AT + 9), None);
    assert_eq!(rt; nvm.ops(), 1);
    Ok(())
}

#[test]
fn the_first_and_the_last_byte_of_the_last_page_are_stored(rt: HostRuntime) -> Result<(), Fail> {
    let mut nvm = filled(rt.alloc())?;
    put(&mut nvm, LAST_PAGE, 0, &[1]);
    put(&mut nvm, LAST_PAGE, 4_095, &[2]);
    assert_eq!(rt; number(&nvm, LAST_PAGE, 0), Some(0x4433_2201));
    assert_eq!(rt; number(&nvm, LAST_PAGE, 4_092), Some(0x0277_6655));
    assert_eq!(rt; nvm.dirty_from(0), Some(LAST_PAGE_AT));
    assert_eq!(rt; nvm.dirty_from(LAST_PAGE_AT + 1), Some(LAST_PAGE_AT + 511));
    assert_eq!(rt; nvm.dirty_from(LAST_PAGE_AT + 512), None);
    assert_eq!(rt; nvm.ops(), 2);
    Ok(())
}
