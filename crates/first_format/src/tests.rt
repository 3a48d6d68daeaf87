//! A small image that a memory is formatted from: its words, worked out by hand, and once more behind each of some cuts.

ghost use Rattle.std.specs.Prelude.{◌+◌, ◌<◌, ◌≤◌, IsTrue, IfOk};
ghost use Rattle.plain_model.specs.Initial.{IsAccepted};
ghost use Rattle.pmem_model.specs.Memory.{AllHome};
ghost use Rattle.first_format.specs.Shows.{IsBegun};

use super::*;
use plain_model::is_accepted;
use pmem_layout::FORMAT_WORD;
use pmem_model::Pmem;
use sls_base::{Image, Lcg, Program, RegionSpec, WORDS};
use std::alloc::{AllocError, Global};
use std::test::Fail;

/// A region with so many bytes, each of which tells where it stands.
fn region(alloc: Global, base: u32, pages: u8, bytes: u32) -> Result<RegionSpec, AllocError> {
    let mut content = Vec::new(alloc);
    for at in 0..bytes {
        content.push((at % 251) as u8)?;
    }
    Ok(RegionSpec {
        base,
        pages,
        rights: 7,
        content,
    })
}

/// A program of a thread and two regions. It has the objects 7 to 11, and the pages 4 to 8, of which 4, 6 and 7 have
/// content.
fn small_image(alloc: Global) -> Result<Image, AllocError> {
    let mut regions = Vec::new(alloc);
    regions.push(region(alloc, 20480, 2, 16)?)?;
    regions.push(region(alloc, 0, 3, 5000)?)?;
    let mut programs = Vec::new(alloc);
    programs.push(Program {
        entry: 4,
        threads: 1,
        channels: 0b100001,
        regions,
    })?;
    Ok(Image { programs })
}

/// Takes so many turns, and tells at which formatting was at its end.
fn go_on(formatting: &mut Formatting, image: &Image, nvm: &mut Pmem, turns: usize) -> Option<usize>
    requires begun { IsBegun formatting.old image.now }
    requires home { AllHome nvm.old }
    ensures { AllHome nvm.new }
{
    for turn in 0..turns {
        if formatting.step(image, nvm) {
            return Some(turn);
        }
    }
    None
}

/// Formats a memory that is zero or was left by a cut, for two cores.
fn format(image: &Image, nvm: &mut Pmem, turns: usize) -> Option<usize>
    requires accepted { IsAccepted image.now }
    requires home { AllHome nvm.old }
    ensures { AllHome nvm.new }
{
    let mut formatting = Formatting::new(image, 2);
    go_on(&mut formatting, image, nvm, turns)
}

/// Writes the words back that a seed draws.
#[tactic(auto, using(crate::proofs::Rooms::homes))]
fn write_back(nvm: &mut Pmem, seed: u64)
    requires { AllHome nvm.old }
    ensures { AllHome nvm.new }
{
    let mut draws = Lcg { state: seed };
    for at in 0..WORDS {
        if draws.next() / 65_536 % 2 == 0 {
            nvm.write_back(at);
        }
    }
}

/// The first word whose durable values differ.
#[tactic(auto, using(crate::proofs::Rooms::homes))]
fn difference(one: &Pmem, other: &Pmem) -> Option<usize>
    requires one { AllHome one.now }
    requires other { AllHome other.now }
{
    for at in 0..WORDS {
        if one.durable(at) != other.durable(at) {
            return Some(at);
        }
    }
    None
}

/// What is durable of a word, or 0 where there is none.
#[tactic(auto, using(crate::proofs::Rooms::homes))]
fn durable(nvm: &Pmem, at: usize) -> u64
    requires { AllHome nvm.now }
{
    if at < WORDS { nvm.durable(at) } else { 0 }
}

#[test]
fn the_words_are_those_of_the_image(rt: HostRuntime) -> Result<(), Fail> {
    let image = small_image(rt.alloc())?;
    let mut nvm = Pmem::new(rt.alloc())?;
    if !is_accepted(&image) {
        return Err("the image is accepted")?;
    }
    let turns = format(&image, &mut nvm, MOST_TURNS);
    // Two turns each for the head, the tags, twelve records and three pages, and one for each other piece.
    assert_eq!(rt; turns, Some(2 * 17 + 621 + 4 - 1));
    for (at, want) in [
        (0, FORMAT_WORD),
        (1, 0),
        (2, 2),
        // Twelve objects and nine pages are in use.
        (16, 0xfff),
        (17, 0),
        (18, 0x1ff),
        (19, 0),
        // Each object has a tag in its first slot.
        (1216, 1),
        (1217, 0),
        (1216 + 2 * 11, 1),
        (1216 + 2 * 12, 0),
        // The scheduler of two cores, and the thread of group 7 and space 8.
        (1536 + 128, 0x208),
        (1536 + 128 * 11, 0x0008_0702),
        // Page 4 has 16 bytes, page 5 none, and page 7 the bytes from 4096 on.
        (17_920 + 512 * 8, 0x0706_0504_0302_0100),
        (17_920 + 512 * 8 + 1, 0x0f0e_0d0c_0b0a_0908),
        (17_920 + 512 * 8 + 2, 0),
        (17_920 + 512 * 10, 0),
        (17_920 + 512 * 14, 0x5756_5554_5352_5150),
    ] {
        assert_eq!(rt; durable(&nvm, at), want, "word {at}");
    }
    Ok(())
}

#[test]
fn formatting_begins_again_behind_a_cut(rt: HostRuntime) -> Result<(), Fail> {
    let image = small_image(rt.alloc())?;
    if !is_accepted(&image) {
        return Err("the image is accepted")?;
    }
    let mut whole = Pmem::new(rt.alloc())?;
    format(&image, &mut whole, MOST_TURNS);
    for turns in [0usize, 1, 2, 3, 4, 28, 145, 148, 655, 656, 657, 658] {
        let mut nvm = Pmem::new(rt.alloc())?;
        format(&image, &mut nvm, turns);
        write_back(&mut nvm, turns as u64);
        nvm.cut();
        format(&image, &mut nvm, MOST_TURNS);
        assert_eq!(rt; difference(&whole, &nvm), None, "{turns} turns");
    }
    Ok(())
}
