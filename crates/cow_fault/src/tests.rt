//! Faults that are cut after each step, faults of two cores turn by turn, and drawn events beside whole contents.

ghost use Rattle.std.specs.Prelude.{◌+◌, ◌<◌, ◌≤◌, IsTrue};
ghost use Rattle.sls_base.specs.declared.limits.TheConstants.{FRAME_WORDS, PAGES, WORDS};
ghost use Rattle.pmem_model.specs.Memory.{AllHome};
ghost use Rattle.cow_fault.specs.Events.{IsPossible};

use super::*;
use page_store::{PageState, PageStore, commit, cut_and_recover, slot_of};
use pmem_layout::{backup_frame, backup_tag_at, frame_at, runtime_frame};
use pmem_model::Pmem;
use sls_base::{CORES, FRAME_WORDS, LAST_VERSION, Lcg, PAGE_WORDS, PAGES, PageNo, Version, WORDS};
use std::alloc::Global;
use std::process::Abort;
use std::test::Fail;

/// The pages of these tests.
const PAGE: PageNo = 4;

const OTHER: PageNo = 5;

/// Whether the event names a core, a page and a word that there are. These tests store nowhere else than in pages.
fn is_possible(event: Event) -> bool
    ensures { IsTrue result → IsPossible event }
{
    match event {
        Event::Fault(core, page) => (core as usize) < CORES && (page as usize) < PAGES,
        Event::Store(page, at, _) => (page as usize) < PAGES && at < FRAME_WORDS,
        Event::FlushPage(page) => (page as usize) < PAGES,
        Event::Flush(core, at) => (core as usize) < CORES && at < WORDS,
        Event::Fence(core) => (core as usize) < CORES,
        Event::WriteBack(at) => at < WORDS,
        Event::StoreElsewhere(_, _) => false,
        Event::Cut(_) => true,
    }
}

/// Lets one event happen. One that isn't possible does nothing.
fn happen(pages: &mut PageStore, nvm: &mut Pmem, version: Version, event: Event) -> bool
    requires { AllHome nvm.old }
    ensures { AllHome nvm.new }
{
    if version <= LAST_VERSION && is_possible(event) {
        play(pages, nvm, version, &[event]) == 1
    } else {
        false
    }
}

/// What a word reads and what is durable of it, or zeros where there is no such word.
#[tactic(auto, using(crate::proofs::Places::places))]
fn values(nvm: &Pmem, at: usize) -> (u64, u64)
    requires { AllHome nvm.now }
{
    if at < WORDS {
        (nvm.read(at), nvm.durable(at))
    } else {
        (0, 0)
    }
}

/// Where what is durable of a page at a version stands.
fn content_at(nvm: &Pmem, page: PageNo, version: Version) -> usize
    requires page { page < PAGES }
    requires home { AllHome nvm.now }
    ensures { result + FRAME_WORDS ≤ WORDS }
{
    match slot_of(nvm, page, version) {
        Some(_) => frame_at(backup_frame(page)),
        None => frame_at(runtime_frame(page)),
    }
}

/// Stores numbers from `first` on in all words of a page.
fn fill(pages: &mut PageStore, nvm: &mut Pmem, version: Version, page: PageNo, first: u64)
    requires { AllHome nvm.old }
    ensures { AllHome nvm.new }
{
    for at in 0..PAGE_WORDS {
        let value = first.wrapping_add(at as u64);
        happen(pages, nvm, version, Event::Store(page, at, value));
    }
}

/// Pages of a new memory at version 3, all fresh but for pages 4 and 5, which are protected: they have the numbers from
/// 400 on and from 900 on.
fn protected_pages(nvm: &mut Pmem) -> PageStore
    requires { AllHome nvm.old }
    ensures { AllHome nvm.new }
{
    let mut pages = PageStore::new(2);
    play(
        &mut pages,
        nvm,
        2,
        &[Event::Fault(1, PAGE), Event::Fault(1, OTHER)],
    );
    fill(&mut pages, nvm, 2, PAGE, 400);
    fill(&mut pages, nvm, 2, OTHER, 900);
    commit(&mut pages, nvm, 2);
    pages
}

/// Writes each word of a page's frames and its tag back, or those that the seed draws.
fn write_back(pages: &mut PageStore, nvm: &mut Pmem, page: PageNo, seed: Option<u64>)
    requires page { page < PAGES }
    requires home { AllHome nvm.old }
    ensures { AllHome nvm.new }
{
    let first = frame_at(runtime_frame(page));
    let mut draws = Lcg {
        state: seed.unwrap_or(0),
    };
    for number in 0..=2 * FRAME_WORDS {
        let at = if number < 2 * FRAME_WORDS {
            first + number
        } else {
            backup_tag_at(page)
        };
        if seed.is_none() || draws.next() / 65_536 % 2 == 0 {
            happen(pages, nvm, 3, Event::WriteBack(at));
        }
    }
}

/// Whether what is durable of a page at version 3, and what it reads, are the numbers from `first` on.
fn is_kept(nvm: &Pmem, page: PageNo, first: u64) -> bool
    requires page { page < PAGES }
    requires home { AllHome nvm.now }
{
    let saved = content_at(nvm, page, 3);
    let running = frame_at(runtime_frame(page));
    for j in 0..FRAME_WORDS {
        let want = first.wrapping_add(j as u64);
        if values(nvm, saved + j).1 != want || values(nvm, running + j).0 != want {
            return false;
        }
    }
    true
}

#[test]
fn a_cut_after_each_step_keeps_a_protected_pages_content(rt: HostRuntime) -> Result<(), Fail> {
    for seed in [1u64, 2] {
        for steps in 0..7usize {
            let mut nvm = Pmem::new(rt.alloc())?;
            let mut pages = protected_pages(&mut nvm);
            for _step in 0..steps {
                happen(&mut pages, &mut nvm, 3, Event::Fault(1, PAGE));
            }
            write_back(&mut pages, &mut nvm, PAGE, Some(seed));
            cut_and_recover(&mut pages, &mut nvm, 3, &[0, 9, 13]);
            assert!(rt; is_kept(&nvm, PAGE, 400), "{steps} steps, seed {seed}");
            assert!(rt; is_kept(&nvm, OTHER, 900), "{steps} steps, seed {seed}");
        }
    }
    Ok(())
}

#[test]
fn a_store_after_the_sixth_step_and_each_write_back_are_lost(rt: HostRuntime) -> Result<(), Fail> {
    let mut nvm = Pmem::new(rt.alloc())?;
    let mut pages = protected_pages(&mut nvm);
    let fault = Event::Fault(1, PAGE);
    let store = Event::Store(PAGE, 7, 99);
    let happened = play(
        &mut pages,
        &mut nvm,
        3,
        &[fault, fault, fault, fault, fault, store],
    );
    assert_eq!(rt; happened, 5, "no store before the last step");
    assert_eq!(rt; play(&mut pages, &mut nvm, 3, &[fault, store, fault]), 2);
    write_back(&mut pages, &mut nvm, PAGE, None);
    assert_eq!(rt; values(&nvm, frame_at(runtime_frame(PAGE)) + 7), (99, 99));
    cut_and_recover(&mut pages, &mut nvm, 3, &[]);
    assert!(rt; is_kept(&nvm, PAGE, 400));
    Ok(())
}

/// The durable first words of the slots of pages 4 and 5, and their durable tags.
fn slots(nvm: &Pmem) -> [u64; 4]
    requires { AllHome nvm.now }
{
    [
        values(nvm, frame_at(backup_frame(PAGE))).1,
        values(nvm, frame_at(backup_frame(OTHER))).1,
        values(nvm, backup_tag_at(PAGE)).1,
        values(nvm, backup_tag_at(OTHER)).1,
    ]
}

#[test]
fn two_cores_prepare_two_pages_turn_by_turn(rt: HostRuntime) -> Result<(), Fail> {
    let mut nvm = Pmem::new(rt.alloc())?;
    let mut pages = protected_pages(&mut nvm);
    let one = Event::Fault(1, PAGE);
    let two = Event::Fault(2, OTHER);
    // A fence by the other core leaves a copy as it is. The tags are in one line, which each core flushes.
    let rows: [(Event, [u64; 4]); 16] = [
        (one, [0, 0, 0, 0]),
        (two, [0, 0, 0, 0]),
        (one, [0, 0, 0, 0]),
        (Event::Fence(2), [0, 0, 0, 0]),
        (two, [0, 0, 0, 0]),
        (Event::Fence(1), [400, 0, 0, 0]),
        (one, [400, 0, 0, 0]),
        (two, [400, 900, 0, 0]),
        (one, [400, 900, 0, 0]),
        (one, [400, 900, 0, 0]),
        (Event::Fence(2), [400, 900, 0, 0]),
        (two, [400, 900, 0, 0]),
        (one, [400, 900, 4, 0]),
        (two, [400, 900, 4, 0]),
        (Event::Fence(1), [400, 900, 4, 0]),
        (two, [400, 900, 4, 4]),
    ];
    for (number, (event, want)) in rows.iter().enumerate() {
        assert!(rt; happen(&mut pages, &mut nvm, 3, *event), "row {number}");
        assert_eq!(rt; slots(&nvm), *want, "row {number}");
    }
    assert_eq!(rt; pages.state(PAGE), PageState::Writable);
    assert_eq!(rt; pages.state(OTHER), PageState::Writable);
    Ok(())
}

#[test]
fn a_fault_takes_as_many_operations_as_it_has_steps(rt: HostRuntime) -> Result<(), Fail> {
    let mut nvm = Pmem::new(rt.alloc())?;
    let mut pages = protected_pages(&mut nvm);
    for (page, core, want) in [(PAGE, 3, 6), (9, 0, 1)] {
        let before = nvm.ops();
        let steps = [Event::Fault(core, page); 8];
        assert_eq!(rt; play(&mut pages, &mut nvm, 3, &steps), want);
        assert_eq!(rt; nvm.ops().wrapping_sub(before), want as u64);
    }
    // Another core doesn't go on with a page that is being prepared.
    let happened = play(
        &mut pages,
        &mut nvm,
        3,
        &[Event::Fault(3, OTHER), Event::Fault(2, OTHER)],
    );
    assert_eq!(rt; happened, 1);
    assert_eq!(rt; pages.state(OTHER), PageState::Preparing(3));
    assert!(rt; !commit(&mut pages, &mut nvm, 3));
    Ok(())
}

#[test]
fn a_page_that_nothing_was_stored_to_is_fresh_again(rt: HostRuntime) -> Result<(), Fail> {
    let mut nvm = Pmem::new(rt.alloc())?;
    let mut pages = protected_pages(&mut nvm);
    let happened = play(
        &mut pages,
        &mut nvm,
        3,
        &[
            Event::Fault(0, 8),
            Event::Fault(0, 9),
            Event::Store(9, 0, 1),
        ],
    );
    assert_eq!(rt; happened, 3);
    assert_eq!(rt;
        (pages.state(8), pages.state(9)),
        (PageState::Writable, PageState::Writable)
    );
    assert!(rt; commit(&mut pages, &mut nvm, 3));
    assert_eq!(rt;
        (pages.state(8), pages.state(9)),
        (PageState::Fresh, PageState::Protected)
    );
    assert_eq!(rt; pages.state(PAGE), PageState::Protected);
    Ok(())
}

/// The contents of pages 4 and 5 by themselves: those of the committed version, and the running ones.
#[derive(Drop)]
struct Contents {
    version: Version,
    saved: [[u64; PAGE_WORDS]; 2],
    now: [[u64; PAGE_WORDS]; 2],
}

impl Contents {
    fn store(&mut self, page: PageNo, at: usize, value: u64) {
        if at < PAGE_WORDS {
            if page == PAGE {
                self.now[0][at] = value;
            } else {
                self.now[1][at] = value;
            }
        }
    }

    /// Whether the durable words are the saved pages, and the cached ones the running pages.
    fn are(&self, nvm: &Pmem) -> bool
        requires { AllHome nvm.now }
    {
        is_page(nvm, self.version, PAGE, &self.saved[0], &self.now[0])
            && is_page(nvm, self.version, OTHER, &self.saved[1], &self.now[1])
    }
}

fn is_page(
    nvm: &Pmem,
    version: Version,
    page: PageNo,
    saved: &[u64; PAGE_WORDS],
    now: &[u64; PAGE_WORDS],
) -> bool
    requires page { page < PAGES }
    requires home { AllHome nvm.now }
{
    let saved_at = content_at(nvm, page, version);
    let now_at = frame_at(runtime_frame(page));
    for j in 0..PAGE_WORDS {
        if values(nvm, saved_at + j).1 != saved[j] || values(nvm, now_at + j).0 != now[j] {
            return false;
        }
    }
    true
}

/// An event of these pages, as a drawn number tells.
fn drawn(draw: u64) -> Event {
    let page = if draw / 16 % 2 == 0 { PAGE } else { OTHER };
    let core = (draw / 32 % 4) as u8;
    let word = (draw / 128 % 2_048) as usize;
    let at = if draw / 262_144 % 8 == 0 {
        backup_tag_at(PAGE) + word % 2
    } else {
        frame_at(runtime_frame(PAGE)) + word
    };
    match draw % 16 {
        0..=4 => Event::Fault(1 + (draw / 64 % 2) as u8, page),
        5..=8 => Event::Store(page, word % PAGE_WORDS, draw),
        9 => Event::FlushPage(page),
        10 | 11 => Event::Flush(core, at),
        12 | 13 => Event::Fence(core),
        _ => Event::WriteBack(at),
    }
}

#[test]
fn drawn_events_keep_whole_contents(rt: HostRuntime) -> Result<(), Fail> {
    let mut nvm = Pmem::new(rt.alloc())?;
    let mut pages = protected_pages(&mut nvm);
    let mut contents = Contents {
        version: 3,
        saved: [[0; PAGE_WORDS]; 2],
        now: [[0; PAGE_WORDS]; 2],
    };
    for at in 0..PAGE_WORDS {
        contents.store(PAGE, at, 400u64.wrapping_add(at as u64));
        contents.store(OTHER, at, 900u64.wrapping_add(at as u64));
    }
    contents.saved = contents.now;
    let mut draws = Lcg { state: 5 };
    for number in 0..3000u32 {
        let draw = draws.next() / 65_536;
        let version = contents.version;
        if draw % 61 == 0 && version < LAST_VERSION {
            if commit(&mut pages, &mut nvm, version) {
                contents.version = version + 1;
                contents.saved = contents.now;
            }
        } else if draw % 67 == 0 {
            let steps = (draw / 128 % 32) as usize;
            if happen(&mut pages, &mut nvm, version, Event::Cut(steps)) {
                contents.now = contents.saved;
            }
        } else {
            let event = drawn(draw);
            let happened = happen(&mut pages, &mut nvm, version, event);
            if let Event::Store(page, at, value) = event {
                if happened {
                    contents.store(page, at, value);
                }
            }
        }
        assert!(rt; contents.are(&nvm), "event {number}");
    }
    assert!(rt; contents.version > 10, "version {}", contents.version);
    Ok(())
}
