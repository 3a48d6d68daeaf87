//! The objects that a machine begins with.

ghost use Rattle.std.specs.Prelude.{◌≡◌, ◌↔◌, ℕ, ◌+◌, ◌++◌, ◌<◌, ◌≤◌, false, true, List, [], All, length, map, replicate, sum_by, None};
ghost use Rattle.std.specs.List.{flat_map};
ghost use Rattle.kobj_table.specs.Slots.{memory_in};
ghost use Rattle.kobj_table.specs.Objects.{slot_at, state_of, HasNoStrays};
ghost use Rattle.plain_model.specs.Objects.{Object};
ghost use Rattle.plain_model.specs.Initial as plain;
ghost use Rattle.plain_model.specs.Initial.{IsAccepted, IsProgram};
ghost use Rattle.plain_model.specs.InitialParts as parts_of;
ghost use Rattle.first_state.specs.Content.{HoldsImage, HoldsParts, HasPartsAt, program_parts, region_parts};
ghost use Rattle.first_state.specs.Filled.{IsFilled, IsFreeFrom, KeepsBelow, AreMarked, HasFreshPages, first_rest};

use crate::filling::add;
use crate::groups::{program_group, program_size, root_group};
use crate::memories::memory_of;
use crate::spaces::space_over;
use crate::threads::program_thread;
use kobj_table::{Cores, Objects, Slot};
use plain_model::PROGRAMS;
use sls_base::{
    CORES, FIRST_OUTPUT_RING, FIRST_PROGRAM_OBJECT, FIRST_PROGRAM_PAGE, INPUT_RING, Image, OBJECTS,
    OUTPUT_CHANNELS, ObjId, PAGES, PageNo, Program, ROOT_GROUP, RegionSpec, Ring, SCHEDULER,
};

/// The input ring, which has no page.
const INPUT: Ring = Ring {
    channel: OUTPUT_CHANNELS as u8,
    fresh: false,
    count: 0,
    page: 0,
};

/// The ring of an output channel, whose page has its number and is fresh.
fn output_ring(channel: u8) -> Ring
    ensures { result ≡ record { channel = channel; fresh = true; count = 0; page = channel } }
{
    Ring {
        channel,
        fresh: true,
        count: 0,
        page: PageNo::from(channel),
    }
}

/// The objects that an image begins with, on so many cores.
pub fn first_objects(image: &Image, cores: u8) -> Objects
    requires image { IsAccepted image.now }
    requires cores { cores ≤ CORES }
    ensures state { (content : ℕ → ℕ → ℕ) → HoldsImage content image.now
        → state_of result (first_rest content) ≡ plain.initial image.now cores }
    ensures fresh { HasFreshPages image.now result }
    ensures scheduler { slot_at result SCHEDULER
        ≡ Slot.Scheduler (record { cores = cores; running = replicate CORES None }) }
    ensures outputs { (channel : ℕ) → channel < OUTPUT_CHANNELS → slot_at result (FIRST_OUTPUT_RING + channel)
        ≡ Slot.Ring (record { channel = channel; fresh = true; count = 0; page = channel }) }
    ensures input { slot_at result INPUT_RING
        ≡ Slot.Ring (record { channel = OUTPUT_CHANNELS; fresh = false; count = 0; page = 0 }) }
    ensures strays { HasNoStrays result }
{
    let programs = image.programs.as_slice();
    let mut objects = fixed_objects(programs, cores);
    let mut n = FIRST_PROGRAM_OBJECT;
    let mut k = FIRST_PROGRAM_PAGE;
    for program in programs {
        add_program(&mut objects, program, n, k);
        n += program_size(program);
        k += program_pages(program);
    }
    objects
}

/// How many pages are in use, of the output rings and of all programs: those below are the ones.
pub fn pages_in_use(image: &Image) -> PageNo
    requires { FIRST_PROGRAM_PAGE + sum_by plain.program_pages image.now.programs.items ≤ PAGES }
    ensures { result ≡ FIRST_PROGRAM_PAGE + sum_by plain.program_pages image.now.programs.items }
{
    let mut pages = FIRST_PROGRAM_PAGE;
    for program in &image.programs {
        pages += program_pages(program);
    }
    pages
}

/// The objects that are always there.
fn fixed_objects(programs: &[Program], cores: u8) -> Objects
    requires count { length programs.now ≤ PROGRAMS }
    requires programs { All IsProgram programs.now }
    requires objects { FIRST_PROGRAM_OBJECT + sum_by plain.program_size programs.now ≤ OBJECTS }
    ensures filled { (content : ℕ → ℕ → ℕ) → IsFilled content result (parts_of.fixed_objects programs.now) }
    ensures free { IsFreeFrom result FIRST_PROGRAM_OBJECT }
    ensures marked { (parts : List (List ℕ)) → AreMarked parts result }
    ensures scheduler { slot_at result SCHEDULER
        ≡ Slot.Scheduler (record { cores = cores; running = replicate CORES None }) }
    ensures outputs { (channel : ℕ) → channel < OUTPUT_CHANNELS → slot_at result (FIRST_OUTPUT_RING + channel)
        ≡ Slot.Ring (record { channel = channel; fresh = true; count = 0; page = channel }) }
    ensures input { slot_at result INPUT_RING
        ≡ Slot.Ring (record { channel = OUTPUT_CHANNELS; fresh = false; count = 0; page = 0 }) }
{
    let mut objects = Objects::new();
    add(&mut objects, ROOT_GROUP, Slot::Group(root_group(programs)));
    add(
        &mut objects,
        SCHEDULER,
        Slot::Scheduler(Cores {
            cores,
            running: [None; CORES],
        }),
    );
    for channel in 0..OUTPUT_CHANNELS as u8 {
        add(
            &mut objects,
            FIRST_OUTPUT_RING + channel,
            Slot::Ring(output_ring(channel)),
        );
    }
    add(&mut objects, INPUT_RING, Slot::Ring(INPUT));
    objects
}

/// Adds the objects of a program, numbered from `n` on, with pages from `k` on.
fn add_program(objects: &mut Objects, program: &Program, n: ObjId, k: PageNo)
    requires program { IsProgram program.now }
    requires room { n + plain.program_size program.now ≤ OBJECTS }
    requires pages { k + plain.program_pages program.now ≤ PAGES }
    requires free { IsFreeFrom objects.old n }
    ensures filled { (content : ℕ → ℕ → ℕ) (parts : List (List ℕ)) (list : List Object) → HoldsParts content parts
        → HasPartsAt parts k (program_parts program.now) → IsFilled content objects.old list → length list ≡ n
        → IsFilled content objects.new (list ++ plain.program_objects program.now n k) }
    ensures marked { (parts : List (List ℕ)) → HasPartsAt parts k (program_parts program.now)
        → AreMarked parts objects.old → AreMarked parts objects.new }
    ensures free { IsFreeFrom objects.new (n + plain.program_size program.now) }
    ensures kept { KeepsBelow objects.old objects.new n }
{
    add(objects, n, Slot::Group(program_group(program, n)));
    let regions = program.regions.as_slice();
    add(objects, n + 1, Slot::Space(space_over(regions, n + 2)));
    add_memories(objects, regions, n + 2, k);
    let first = n + 2 + regions.len() as u8;
    for j in 0..program.threads {
        add(
            objects,
            first + j,
            Slot::Thread(program_thread(program, n, j)),
        );
    }
}

/// Adds the memory objects of regions, numbered from `n` on, with pages from `k` on.
fn add_memories(objects: &mut Objects, specs: &[RegionSpec], n: ObjId, k: PageNo)
    requires regions { All plain.IsRegion specs.now }
    requires room { n + length specs.now ≤ OBJECTS }
    requires pages { k + sum_by plain.pages_taken specs.now ≤ PAGES }
    requires free { IsFreeFrom objects.old n }
    ensures filled { (content : ℕ → ℕ → ℕ) (parts : List (List ℕ)) (list : List Object) → HoldsParts content parts
        → HasPartsAt parts k (flat_map region_parts specs.now) → IsFilled content objects.old list → length list ≡ n
        → IsFilled content objects.new (list ++ plain.program_memories specs.now k) }
    ensures marked { (parts : List (List ℕ)) → HasPartsAt parts k (flat_map region_parts specs.now)
        → AreMarked parts objects.old → AreMarked parts objects.new }
    ensures free { IsFreeFrom objects.new (n + length specs.now) }
    ensures kept { KeepsBelow objects.old objects.new n }
{
    let mut id = n;
    let mut page = k;
    for spec in specs {
        add(objects, id, Slot::Memory(memory_of(spec, page)));
        id += 1;
        page += u16::from(spec.pages);
    }
}

/// The number of pages that a program has.
fn program_pages(program: &Program) -> PageNo
    requires { plain.program_pages program.now ≤ PAGES }
    ensures { result ≡ plain.program_pages program.now }
{
    let mut pages = 0;
    for spec in &program.regions {
        pages += u16::from(spec.pages);
    }
    pages
}
