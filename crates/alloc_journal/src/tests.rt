//! Examples with numbers, and drawn lists of steps against a slow form that keeps whole sets.

ghost use Rattle.std.specs.Prelude.{◌<◌, ◌≤◌, IfSome};

use super::*;
use crate::memory::{fence, flush, read, store};
use pmem_layout::{
    BASE_BITS, LOG_ENTRIES_AT, LOG_HEAD_AT, NUMBERS, OBJECT_BASE_AT, PAGE_BASE_AT, is_in_base,
};
use pmem_model::Pmem;
use sls_base::{
    CORES, CoreNo, LAST_VERSION, LINE_WORDS, Lcg, OBJECTS, ObjId, PAGES, PageNo, TABLE_WORDS,
    VERSION_AT, Version,
};
use std::alloc::{AllocError, Global};
use std::marker::Model;
use std::process::Abort;
use std::test::Fail;

/// What a checkpoint does next.
#[derive(Clone, Copy, PartialEq, Eq)]
enum Turn {
    Log,
    StoreVersion,
    FlushVersion,
    FenceVersion,
    Apply,
    Resumed,
}

/// A memory with its numbers, and how far a checkpoint has come.
#[derive(Drop)]
struct World {
    nvm: Pmem,
    numbers: Numbers,
    turn: Turn,
}

impl Model for World {
    ghost use Rattle.pmem_model.specs.Memory.{AllHome};

    ghost Value = { Unit {0} };

    ghost view = { λ w. tt };

    ghost invariant = { λ w. AllHome w.nvm };
}

#[tactic(auto, using(crate::proofs::Homes::places))]
impl World {
    /// A memory at version 3, with pages 0 to 9 in use and no object.
    fn with_ten_pages(alloc: Global) -> Result<World, AllocError> {
        let nvm = Pmem::new(alloc)?;
        let numbers = Numbers::recover(&nvm, 3);
        let mut world = World {
            nvm,
            numbers,
            turn: Turn::Resumed,
        };
        world.reset();
        Ok(world)
    }

    /// The same memory anew.
    fn reset(&mut self) {
        store(&mut self.nvm, VERSION_AT, 3);
        store(&mut self.nvm, PAGE_BASE_AT, 0x3FF);
        store(&mut self.nvm, LOG_HEAD_AT, 0);
        flush(&mut self.nvm, 0, 4);
        fence(&mut self.nvm);
        self.numbers = Numbers::recover(&self.nvm, 3);
        self.turn = Turn::Resumed;
    }

    /// The word of the base for pages 0 to 63, as it is durable.
    fn first_pages(&self) -> u64 {
        self.nvm.durable(PAGE_BASE_AT)
    }

    /// One operation of formatting.
    fn format(&mut self) -> bool {
        self.numbers.format_step(&mut self.nvm)
    }

    /// One operation of a checkpoint.
    fn advance(&mut self) {
        match self.turn {
            Turn::Log => {
                if self.numbers.version() < LAST_VERSION && self.numbers.log_step(&mut self.nvm) {
                    self.turn = Turn::StoreVersion;
                }
            }
            Turn::StoreVersion => {
                store(
                    &mut self.nvm,
                    VERSION_AT,
                    self.numbers.version().saturating_add(1),
                );
                self.turn = Turn::FlushVersion;
            }
            Turn::FlushVersion => {
                flush(&mut self.nvm, 0, 1);
                self.turn = Turn::FenceVersion;
            }
            Turn::FenceVersion => {
                fence(&mut self.nvm);
                self.numbers.commit();
                self.turn = Turn::Apply;
            }
            Turn::Apply => {
                if self.numbers.apply_step(&mut self.nvm) {
                    self.turn = Turn::Resumed;
                }
            }
            Turn::Resumed => {}
        }
    }

    /// Takes the least free object number.
    fn take_object(&mut self) -> Option<ObjId>
        ensures { IfSome result (λ id. id < OBJECTS) }
    {
        let id = self.numbers.least_free_object()?;
        self.numbers.take_object(id);
        Some(id)
    }

    /// Takes the least free page number.
    fn take_page(&mut self) -> Option<PageNo>
        ensures { IfSome result (λ page. page < PAGES) }
    {
        let page = self.numbers.least_free_page()?;
        self.numbers.take_page(page);
        Some(page)
    }

    /// Page 6 goes and page 10 comes, and a checkpoint begins.
    fn change_pages(&mut self) {
        self.numbers.note_free_page(6);
        self.take_page();
        self.turn = Turn::Log;
    }

    /// A word is written back.
    fn write_back(&mut self, at: usize)
        requires { at < TABLE_WORDS }
    {
        play(&mut self.numbers, &mut self.nvm, &[Event::WriteBack(at)]);
    }

    /// Another core flushes a line of the table.
    fn foreign_flush(&mut self, core: CoreNo, line: usize)
        requires core { core < CORES }
        requires line { line < 64 }
    {
        play(
            &mut self.numbers,
            &mut self.nvm,
            &[Event::Flush(core, line * LINE_WORDS)],
        );
    }

    fn foreign_fence(&mut self, core: CoreNo)
        requires { core < CORES }
    {
        play(&mut self.numbers, &mut self.nvm, &[Event::Fence(core)]);
    }

    /// Cuts the power, and goes on from the version that is committed then.
    fn cut(&mut self) {
        self.nvm.cut();
        let version = read(&self.nvm, VERSION_AT).min(LAST_VERSION);
        self.numbers = Numbers::recover(&self.nvm, version);
        self.turn = Turn::Resumed;
    }

    /// Redoes the log after a cut, up to some steps; true where it is done.
    fn redo(&mut self, steps: usize) -> bool {
        for _ in 0..steps {
            if self.numbers.redo_step(&mut self.nvm) {
                return true;
            }
        }
        false
    }

    /// Whether the base has a number, as it is durable.
    fn has_durable(&self, number: usize) -> bool
        requires { number < NUMBERS }
    {
        let word = self.nvm.durable(OBJECT_BASE_AT + number / BASE_BITS);
        is_in_base(word, (number % BASE_BITS) as u32)
    }
}

/// The steps that a redo takes at most.
const MOST_STEPS: usize = NUMBERS + 8;

#[test]
fn pages_that_come_and_go_are_all_or_none_after_any_cut(rt: HostRuntime) -> Result<(), Fail> {
    let mut world = World::with_ten_pages(rt.alloc())?;
    for turns in 0..18usize {
        for head_is_written_back in [false, true] {
            world.reset();
            assert!(rt; world.redo(MOST_STEPS));
            assert_eq!(rt; world.numbers.least_free_page(), Some(10));
            world.change_pages();
            for _ in 0..turns {
                world.advance();
            }
            if head_is_written_back {
                world.write_back(LOG_HEAD_AT);
            }
            world.cut();
            assert!(rt; world.redo(MOST_STEPS), "after {turns} turns");
            // The version word is durable from the tenth turn on.
            let (pages, free) = if turns < 10 { (0x3FF, 10) } else { (0x7BF, 6) };
            assert_eq!(rt; world.first_pages(), pages, "after {turns} turns");
            assert_eq!(rt;
                world.numbers.least_free_page(),
                Some(free),
                "after {turns} turns"
            );
        }
    }
    Ok(())
}

/// The slow form: whole sets.
#[derive(Drop)]
struct Sets {
    running: [bool; NUMBERS],
    committed: [bool; NUMBERS],
    logged: [bool; NUMBERS],
}

impl Sets {
    /// The least number from the first up to the past one that neither set has.
    fn least_free(&self, first: usize, past: usize) -> Option<usize>
        requires { past ≤ NUMBERS }
    {
        (first..past).find(|number| !self.running[*number] && !self.committed[*number])
    }
}

/// Compares the numbers with the slow form.
fn compare(rt: &impl Abort, world: &World, sets: &Sets, step: usize) {
    let object = world.numbers.least_free_object().map(usize::from);
    assert_eq!(rt;
        object,
        sets.least_free(0, OBJECTS),
        "object at step {step}"
    );
    let page = world
        .numbers
        .least_free_page()
        .map(|page| OBJECTS + usize::from(page));
    assert_eq!(rt;
        page,
        sets.least_free(OBJECTS, NUMBERS),
        "page at step {step}"
    );
}

/// Takes a free number, as both forms have it.
fn take(world: &mut World, sets: &mut Sets, is_page: bool) {
    if is_page {
        if let Some(page) = world.take_page() {
            sets.running[OBJECTS + usize::from(page)] = true;
        }
    } else if let Some(id) = world.take_object() {
        sets.running[usize::from(id)] = true;
    }
}

/// A number goes out of use in the running state.
fn free(world: &mut World, sets: &mut Sets, number: usize)
    requires { number < NUMBERS }
{
    if number < OBJECTS {
        world.numbers.note_free_object(number as ObjId);
    } else {
        world.numbers.note_free_page((number - OBJECTS) as PageNo);
    }
    sets.running[number] = false;
}

/// A turn of a checkpoint, which begins where none is going on.
fn checkpoint(world: &mut World, sets: &mut Sets) {
    if world.turn == Turn::Resumed {
        world.turn = Turn::Log;
        sets.logged = sets.running;
    }
    if world.turn == Turn::FenceVersion {
        sets.committed = sets.logged;
    }
    world.advance();
}

/// A cut, and a recovery that may be cut again before its last step.
fn recover(rt: &impl Abort, world: &mut World, sets: &mut Sets, steps: usize) {
    let version = world.numbers.version();
    world.cut();
    if world.numbers.version() != version {
        sets.committed = sets.logged;
    }
    sets.running = sets.committed;
    if !world.redo(steps) {
        world.cut();
        assert!(rt; world.redo(MOST_STEPS));
    }
    for number in 0..NUMBERS {
        assert_eq!(rt;
            world.has_durable(number),
            sets.committed[number],
            "number {number}"
        );
    }
}

#[test]
fn drawn_steps_and_cuts_leave_what_whole_sets_have(rt: HostRuntime) -> Result<(), Fail> {
    let mut draws = Lcg { state: 36 };
    let mut world = World::with_ten_pages(rt.alloc())?;
    assert!(rt; world.redo(MOST_STEPS));
    let mut sets = Sets {
        running: [false; NUMBERS],
        committed: [false; NUMBERS],
        logged: [false; NUMBERS],
    };
    for page in 0..10 {
        sets.running[OBJECTS + page] = true;
        sets.committed[OBJECTS + page] = true;
    }
    for step in 0..3_000 {
        let draw = draws.next();
        let number = (draw >> 20) as usize % NUMBERS;
        match draw >> 60 {
            0..=3 => take(&mut world, &mut sets, number >= OBJECTS),
            4 => free(&mut world, &mut sets, number),
            5..=10 => checkpoint(&mut world, &mut sets),
            11 => world.foreign_flush(((draw >> 50) % 8) as CoreNo, number % 8),
            12 => world.foreign_fence(((draw >> 50) % 8) as CoreNo),
            13 => world.write_back(LOG_HEAD_AT),
            14 => world.write_back(number % 64),
            _ if number < 64 => recover(&rt, &mut world, &mut sets, number % 16),
            _ => {}
        }
        compare(&rt, &world, &sets, step);
    }
    Ok(())
}

#[test]
fn the_first_numbers_are_stored(rt: HostRuntime) -> Result<(), Fail> {
    let mut world = World::with_ten_pages(rt.alloc())?;
    world.numbers = Numbers::unformatted();
    for _ in 0..10u8 {
        world.take_object();
    }
    for _ in 0..4u8 {
        world.take_page();
    }
    assert!(rt; !world.format() && !world.format() && world.format());
    assert_eq!(rt; world.numbers.version(), 0);
    assert_eq!(rt; world.first_pages(), 0xF);
    world.cut();
    assert!(rt; world.redo(MOST_STEPS));
    assert_eq!(rt; world.numbers.least_free_object(), Some(10));
    assert_eq!(rt; world.numbers.least_free_page(), Some(4));
    Ok(())
}

#[test]
fn all_numbers_can_be_taken_and_logged(rt: HostRuntime) -> Result<(), Fail> {
    let mut world = World::with_ten_pages(rt.alloc())?;
    assert!(rt; world.redo(MOST_STEPS));
    for _ in 0..OBJECTS {
        world.take_object();
    }
    for _ in 0..PAGES {
        world.take_page();
    }
    assert_eq!(rt; world.numbers.least_free_object(), None);
    assert_eq!(rt; world.numbers.least_free_page(), None);
    world.turn = Turn::Log;
    // 630 entries, five steps more for the log, three for the version, and 630 and five to apply it.
    for _ in 0..1_273 {
        assert!(rt; world.turn != Turn::Resumed);
        world.advance();
    }
    assert!(rt; world.turn == Turn::Resumed);
    world.cut();
    assert!(rt; world.redo(5));
    for number in 0..NUMBERS {
        assert!(rt; world.has_durable(number));
    }
    Ok(())
}
