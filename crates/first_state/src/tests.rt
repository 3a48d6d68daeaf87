//! An image and what a machine begins with, worked out by hand and beside the plain machine's first world.

use super::*;
use kobj_table::Objects;
use plain_model::{World, is_accepted};
use sls_base::{
    Image, ObjId, PAGE_WORDS, PageNo, Program, RegionSpec, SCHEDULER, ThreadState, ThreadView,
};
use std::alloc::{AllocError, Global};
use std::test::Fail;

/// A region with so many bytes, each of which tells where it stands.
fn region(alloc: Global, base: u32, pages: u8, bytes: u32) -> Result<RegionSpec, AllocError> {
    let mut content = Vec::new(alloc);
    for at in 0..bytes {
        content.push((at % 251) as u8)?;
    }
    Ok(RegionSpec {
        base,
        pages,
        rights: 7,
        content,
    })
}

/// A program of two regions: two pages from 20480 on with 16 bytes, and below them three pages with so many.
fn program(alloc: Global, threads: u8, channels: u8, bytes: u32) -> Result<Program, AllocError> {
    let mut regions = Vec::new(alloc);
    regions.push(region(alloc, 20480, 2, 16)?)?;
    regions.push(region(alloc, 0, 3, bytes)?)?;
    Ok(Program {
        entry: 4,
        threads,
        channels,
        regions,
    })
}

/// Two programs. The first has the objects 7 to 12 and the pages 4 to 8, the second 13 to 17 and 9 to 13.
fn two_programs(alloc: Global) -> Result<Image, AllocError> {
    let mut programs = Vec::new(alloc);
    programs.push(program(alloc, 2, 0b100001, 5000)?)?;
    programs.push(program(alloc, 1, 0b010010, 4096)?)?;
    Ok(Image { programs })
}

/// What an image begins with on three cores, where it is accepted.
fn objects_of(image: &Image) -> Option<Objects> {
    if is_accepted(image) {
        Some(first_objects(image, 3))
    } else {
        None
    }
}

/// The first world of an image on three cores.
fn world_of(alloc: Global, image: &Image) -> Result<World, Fail> {
    if is_accepted(image) {
        Ok(World::new(alloc, image, 3)?)
    } else {
        Err("the image is accepted")?
    }
}

/// The object to which a group has a capability.
fn held(objects: &Objects, group: ObjId, slot: u32) -> Option<ObjId> {
    let cap = objects.group(group)?.find(slot)?;
    Some(cap.object)
}

/// A page of a memory object, and whether it is fresh.
fn page_of(objects: &Objects, id: ObjId, index: u8) -> Option<(PageNo, bool)> {
    let page = objects.memory(id)?.page(index)?;
    Some((page.page, page.fresh))
}

fn view_of(objects: &Objects, id: ObjId) -> Option<ThreadView> {
    let thread = objects.thread(id)?;
    Some(ThreadView {
        state: thread.state,
        pc: thread.pc,
        x10: thread.x[10],
    })
}

/// A word of a page, if a page has it.
fn word_of(image: &Image, page: PageNo, k: usize) -> Option<u64> {
    if k < PAGE_WORDS {
        Some(first_word(image, page, k))
    } else {
        None
    }
}

#[test]
fn objects_are_numbered_program_by_program(rt: HostRuntime) -> Result<(), Fail> {
    let image = two_programs(rt.alloc())?;
    let objects = objects_of(&image).ok_or("the image is accepted")?;
    for (group, want) in [
        (0, [7, 13, 0, 0, 0, 0, 0, 0, 0, 0, 0, 0, 0]),
        (7, [7, 8, 2, 0, 0, 0, 0, 0, 9, 10, 11, 12, 0]),
        (13, [13, 14, 0, 3, 0, 0, 6, 0, 15, 16, 17, 0, 0]),
    ] {
        for (slot, want) in want.iter().enumerate() {
            let held = held(&objects, group, slot as u32);
            assert_eq!(rt; held.unwrap_or(0), *want, "slot {slot} of {group}");
        }
    }
    assert_eq!(rt; held(&objects, 7, 7), Some(0));
    for (id, index, want) in [
        (9, 0, (4, false)),
        (9, 1, (5, true)),
        (10, 1, (7, false)),
        (10, 2, (8, true)),
        (16, 0, (11, false)),
        (16, 1, (12, true)),
    ] {
        assert_eq!(rt;
            page_of(&objects, id, index),
            Some(want),
            "page {index} of {id}"
        );
    }
    Ok(())
}

#[test]
fn threads_and_pages_are_those_of_the_first_world(rt: HostRuntime) -> Result<(), Fail> {
    let image = two_programs(rt.alloc())?;
    let objects = objects_of(&image).ok_or("the image is accepted")?;
    let world = world_of(rt.alloc(), &image)?;
    for id in 0..128u8 {
        assert_eq!(rt; view_of(&objects, id), world.thread(id), "at {id}");
    }
    for page in 0..512u16 {
        assert_eq!(rt; world.has_page(page), page < 14, "page {page}");
    }
    let second = ThreadView {
        state: ThreadState::Ready,
        pc: 4,
        x10: 1,
    };
    assert_eq!(rt; view_of(&objects, 12), Some(second));
    assert_eq!(rt; objects.first(SCHEDULER), Some(11));
    for (thread, next) in [(11, Some(12)), (12, Some(17)), (17, None)] {
        assert_eq!(rt; objects.next(thread), next, "behind {thread}");
    }
    Ok(())
}

#[test]
fn words_are_the_bytes_of_their_page(rt: HostRuntime) -> Result<(), Fail> {
    let image = two_programs(rt.alloc())?;
    for (page, k, want) in [
        (3, 0, 0),
        (4, 1, 0x0f0e0d0c0b0a0908),
        (4, 2, 0),
        (5, 0, 0),
        (6, 0, 0x0706050403020100),
        (7, 0, 0x5756555453525150),
        (7, 112, 0xe6e5e4e3e2e1e0df),
        (7, 113, 0),
        (8, 0, 0),
        (11, 511, 0x4f4e4d4c4b4a4948),
        (13, 511, 0),
        (14, 0, 0),
    ] {
        assert_eq!(rt;
            word_of(&image, page, k),
            Some(want),
            "word {k} of page {page}"
        );
    }
    assert_eq!(rt; content_on(&image, 7).len(), 904);
    assert!(rt; content_on(&image, 8).is_empty());
    Ok(())
}
