//! The state that an image begins with.

ghost use Rattle.std.specs.Prelude.{◌≡◌, ◌<◌, ◌≤◌, ◌+◌, ◌++◌, All, IfOk, OnOk, Some, filter, length, map, slice_get, sum_by};
ghost use Rattle.std.specs.List.{range_with_len};
ghost use Rattle.sls_base.specs.declared.limits.TheConstants.{OBJECTS, PAGES};
ghost use Rattle.sls_base.specs.declared.fixed.TheConstants.{FIRST_PROGRAM_OBJECT};
ghost use Rattle.plain_model.specs.declared.image.TheConstants.{PROGRAMS};
ghost use Rattle.plain_state.specs.declared.object.Object.TheVariants as SlowObject;
ghost use Rattle.plain_model.specs.Initial as plain;
ghost use Rattle.plain_model.specs.Initial.{IsAccepted, IsProgram};
ghost use Rattle.plain_model.specs.InitialParts.{channel_caps, fixed_objects};
ghost use Rattle.plain_state.specs.Objects as objects;
ghost use Rattle.plain_state.specs.Slow.{page_of, object_of, slot_of, objects_of, state_of};
ghost use Rattle.plain_model.specs.SlowWorld.{world_of};
ghost use Rattle.plain_state.specs.declared.state.TheConstants.{NUMBERS};

use crate::world::World;
use arrayvec::ArrayVec;
use plain_state::{
    Capability, FIRST_ARGUMENT, NUMBERS, Object, Page, Region, State, includes, inserted,
};
use sls_base::{
    ALL_RIGHTS, FIRST_OUTPUT_RING, FIRST_PROGRAM_OBJECT, FIRST_PROGRAM_PAGE, GROUP_SLOTS,
    INPUT_RING, Image, OUTPUT_CHANNELS, ObjId, PAGE_BYTES, PageNo, Program, REGISTERS, ROOT_GROUP,
    RegionSpec, Thread, ThreadState,
};
use std::alloc::{AllocError, Global};

/// A capability with all rights.
fn all_rights(object: ObjId) -> Option<Capability>
    ensures { result ≡ plain.all_rights object }
{
    Some(Capability {
        object,
        rights: u32::from(ALL_RIGHTS),
    })
}

/// The capability where a bit of the program's channels is set.
fn if_set(program: &Program, bit: u32, object: ObjId) -> Option<Capability>
    requires { bit < 32 }
    ensures { result ≡ plain.if_set program.now bit object }
{
    if includes(u32::from(program.channels), 1 << bit) {
        all_rights(object)
    } else {
        None
    }
}

/// The capabilities, with empty slots behind them.
fn padded(slots: ArrayVec<Option<Capability>, 32>) -> ArrayVec<Option<Capability>, 32>
    ensures { result.items ≡ plain.slots_with slots.items }
{
    let mut padded = slots;
    for _ in padded.len()..GROUP_SLOTS {
        padded.push(None);
    }
    padded
}

/// The numbers of objects that a program has.
pub(crate) fn program_size(program: &Program) -> u8
    requires { IsProgram program.now }
    ensures { result ≡ plain.program_size program.now }
{
    (program.regions.len() as u8)
        .wrapping_add(program.threads)
        .wrapping_add(2)
}

/// The capabilities that each program may have: itself, its space, its channels and the root group.
fn channel_slots(program: &Program, n: ObjId) -> ArrayVec<Option<Capability>, 32>
    requires { n + 2 ≤ OBJECTS }
    ensures { result.items ≡ channel_caps program.now n }
{
    let mut slots = ArrayVec::new();
    slots.push(all_rights(n));
    slots.push(all_rights(n.wrapping_add(1)));
    slots.push(if_set(program, 0, FIRST_OUTPUT_RING));
    slots.push(if_set(program, 1, FIRST_OUTPUT_RING + 1));
    slots.push(if_set(program, 2, FIRST_OUTPUT_RING + 2));
    slots.push(if_set(program, 3, FIRST_OUTPUT_RING + 3));
    slots.push(if_set(program, 4, INPUT_RING));
    slots.push(if_set(program, 5, ROOT_GROUP));
    slots
}

/// The capabilities that a program begins with.
fn program_slots(program: &Program, n: ObjId) -> ArrayVec<Option<Capability>, 32>
    requires program { IsProgram program.now }
    requires room { n + plain.program_size program.now ≤ OBJECTS }
    ensures { result.items ≡ plain.slots_with (plain.program_caps program.now n) }
{
    let mut slots = channel_slots(program, n);
    for own in 2..program_size(program) {
        slots.push(all_rights(n.wrapping_add(own)));
    }
    padded(slots)
}

/// A region over a memory object, from its first page on.
fn region_over(spec: &RegionSpec, memory: ObjId) -> Region
    ensures { result ≡ plain.region_over spec.now memory }
{
    Region {
        base: spec.base / PAGE_BYTES as u32,
        count: u32::from(spec.pages),
        first: 0,
        memory,
        rights: u32::from(spec.rights),
    }
}

/// The regions over the memory objects from `n` on, by rising base.
fn program_regions(alloc: Global, specs: &[RegionSpec], n: ObjId) -> Result<Vec<Region>, AllocError>
    requires { n + length specs.now ≤ OBJECTS }
    ensures { IfOk result (λ regions. regions.items ≡ plain.program_regions specs.now n) }
{
    match specs {
        [] => Ok(Vec::new(alloc)),
        [spec, rest @ ..] => {
            let others = program_regions(alloc, rest, n.wrapping_add(1))?;
            inserted(alloc, region_over(spec, n), others.as_slice())
        }
    }
}

/// Page `j` of a region's content.
fn page_of_content(alloc: Global, content: &[u8], k: PageNo, j: u8) -> Result<Page, AllocError>
    requires { k + j ≤ PAGES }
    ensures { IfOk result (λ page. page_of page ≡ plain.page_of_content content.now k j) }
{
    let from = PAGE_BYTES * usize::from(j);
    let mut bytes = Vec::new(alloc);
    for at in 0..PAGE_BYTES {
        bytes.push(content.get(from + at).copied().unwrap_or(0))?;
    }
    Ok(Page {
        number: k.wrapping_add(u16::from(j)),
        bytes,
    })
}

/// The memory object of a region, whose pages are numbered from `k` on.
fn memory_of(alloc: Global, spec: &RegionSpec, k: PageNo) -> Result<Object, AllocError>
    requires { k + spec.now.pages ≤ PAGES }
    ensures { IfOk result (λ object. object_of object ≡ plain.memory_of spec.now k) }
{
    let mut pages = Vec::new(alloc);
    for j in 0..spec.pages {
        pages.push(page_of_content(alloc, spec.content.as_slice(), k, j)?)?;
    }
    Ok(Object::Memory(pages))
}

/// Thread `j` of a program, which begins at the entry with its first argument `j`.
#[tactic(auto, unfolding(plain_state::specs::States::zero_registers))]
fn program_thread(program: &Program, n: ObjId, j: u8) -> Object
    requires { n < OBJECTS }
    ensures { object_of result ≡ plain.program_thread program.now n j }
{
    let mut x = [0; REGISTERS];
    x[FIRST_ARGUMENT] = u32::from(j);
    Object::Thread(Thread {
        group: n,
        space: n.wrapping_add(1),
        state: ThreadState::Ready,
        pc: program.entry,
        x,
    })
}

/// Adds the memory objects of a program's regions, whose pages are numbered from `k` on.
fn add_memories(
    list: &mut Vec<Object>,
    alloc: Global,
    specs: &[RegionSpec],
    k: PageNo,
) -> Result<(), AllocError>
    requires { k + sum_by plain.pages_taken specs.now ≤ PAGES }
    ensures { OnOk result (map object_of list.new.items ≡ map object_of list.old.items
        ++ plain.program_memories specs.now k) }
{
    let mut next = k;
    for spec in specs {
        list.push(memory_of(alloc, spec, next)?)?;
        next = next.wrapping_add(u16::from(spec.pages));
    }
    Ok(())
}

/// Adds the objects of a program, numbered from `n` on, with pages from `k` on.
fn add_program(
    list: &mut Vec<Object>,
    alloc: Global,
    program: &Program,
    n: ObjId,
    k: PageNo,
) -> Result<(), AllocError>
    requires program { IsProgram program.now }
    requires objects { n + plain.program_size program.now ≤ OBJECTS }
    requires pages { k + plain.program_pages program.now ≤ PAGES }
    ensures { OnOk result (map object_of list.new.items ≡ map object_of list.old.items
        ++ plain.program_objects program.now n k) }
{
    list.push(Object::Group(program_slots(program, n)))?;
    let regions = program_regions(alloc, program.regions.as_slice(), n.wrapping_add(2))?;
    list.push(Object::Space(regions))?;
    add_memories(list, alloc, program.regions.as_slice(), k)?;
    for j in 0..program.threads {
        list.push(program_thread(program, n, j))?;
    }
    Ok(())
}

/// The pages that a program has.
fn program_pages(program: &Program) -> PageNo
    requires { plain.program_pages program.now ≤ PAGES }
    ensures { result ≡ plain.program_pages program.now }
{
    let mut pages = 0u16;
    for spec in &program.regions {
        pages = pages.wrapping_add(u16::from(spec.pages));
    }
    pages
}

/// The slots of the root group.
fn root_slots(programs: &[Program]) -> ArrayVec<Option<Capability>, 32>
    requires count { length programs.now ≤ PROGRAMS }
    requires programs { All IsProgram programs.now }
    requires objects { FIRST_PROGRAM_OBJECT + sum_by plain.program_size programs.now ≤ OBJECTS }
    ensures { object_of (SlowObject.Group result) ≡ plain.root_group programs.now }
{
    let mut slots = ArrayVec::new();
    let mut n = FIRST_PROGRAM_OBJECT;
    for program in programs {
        slots.push(all_rights(n));
        n = n.wrapping_add(program_size(program));
    }
    padded(slots)
}

/// The objects that are no program's, in order of number.
fn fixed_objects(alloc: Global, programs: &[Program]) -> Result<Vec<Object>, AllocError>
    requires count { length programs.now ≤ PROGRAMS }
    requires programs { All IsProgram programs.now }
    requires objects { FIRST_PROGRAM_OBJECT + sum_by plain.program_size programs.now ≤ OBJECTS }
    ensures { IfOk result (λ list. map object_of list.items ≡ fixed_objects programs.now) }
{
    let mut list = Vec::new(alloc);
    list.push(Object::Group(root_slots(programs)))?;
    list.push(Object::Scheduler)?;
    for channel in 0..OUTPUT_CHANNELS as u8 {
        list.push(Object::OutputRing(channel))?;
    }
    list.push(Object::InputRing)?;
    Ok(list)
}

/// The objects in order of number.
fn image_objects(alloc: Global, image: &Image) -> Result<Vec<Object>, AllocError>
    requires { IsAccepted image.now }
    ensures objects { IfOk result (λ list. map object_of list.items ≡ plain.image_objects image.now.programs.items) }
    ensures count { IfOk result (λ list. length list.items ≤ OBJECTS) }
{
    let programs = image.programs.as_slice();
    let mut list = fixed_objects(alloc, programs)?;
    let (mut n, mut k) = (FIRST_PROGRAM_OBJECT, FIRST_PROGRAM_PAGE);
    for program in programs {
        add_program(&mut list, alloc, program, n, k)?;
        n = n.wrapping_add(program_size(program));
        k = k.wrapping_add(program_pages(program));
    }
    Ok(list)
}

/// The objects, each as one that is there.
fn there(alloc: Global, list: Vec<Object>) -> Result<Vec<Option<Object>>, AllocError>
    ensures { IfOk result (λ objects. map slot_of objects.items ≡ map Some (map object_of list.items)) }
{
    let mut objects = Vec::new(alloc);
    for object in list {
        objects.push(Some(object))?;
    }
    Ok(objects)
}

/// The objects by number.
fn by_number(alloc: Global, list: Vec<Object>) -> Result<Vec<Option<Object>>, AllocError>
    requires { length list.items ≤ OBJECTS }
    ensures sized { IfOk result (λ objects. length objects.items ≡ NUMBERS) }
    ensures objects { IfOk result (λ objects. objects_of objects.items ≡ slice_get (map object_of list.items)) }
{
    let mut objects = there(alloc, list)?;
    for _ in objects.len()..NUMBERS {
        objects.push(None)?;
    }
    Ok(objects)
}

fn is_thread(object: &Object) -> bool
    ensures { result ≡ objects.is_thread (Some (object_of object.now)) }
{
    matches!(object, Object::Thread(_))
}

/// The numbers of the threads, in order.
fn thread_numbers(alloc: Global, list: &[Object]) -> Result<Vec<ObjId>, AllocError>
    requires { length list.now ≤ OBJECTS }
    ensures { IfOk result (λ queue. queue.items
        ≡ filter (λ i. objects.is_thread (slice_get (map object_of list.now) i)) (range_with_len 0 (length list.now))) }
{
    let mut queue = Vec::new(alloc);
    for i in 0..list.len() {
        if is_thread(&list[i]) {
            queue.push(i as u8)?;
        }
    }
    Ok(queue)
}

/// The state that the image begins with.
fn initial(alloc: Global, image: &Image, cores: u8) -> Result<State, AllocError>
    requires { IsAccepted image.now }
    ensures { IfOk result (λ s. state_of s ≡ plain.initial image.now cores) }
{
    let list = image_objects(alloc, image)?;
    Ok(State {
        queue: thread_numbers(alloc, list.as_slice())?,
        objects: by_number(alloc, list)?,
        cores: vec![in alloc; None; usize::from(cores)]?,
        out: Vec::new(alloc),
        inputs: Vec::new(alloc),
    })
}

impl World {
    /// The first world of an image.
    pub fn new(alloc: Global, image: &Image, cores: u8) -> Result<World, AllocError>
        requires image { IsAccepted image.now }
        requires some_core { 1 ≤ cores }
        requires cores { cores ≤ 8 }
        ensures { IfOk result (λ w. world_of w ≡ plain.first_world image.now cores) }
    {
        let now = initial(alloc, image, cores)?;
        let saved = now.copy(alloc, 0)?;
        Ok(World {
            running: now,
            saved,
            released: Vec::new(alloc),
            version: 0,
            stored: Vec::new(alloc),
            changed: Vec::new(alloc),
        })
    }
}
