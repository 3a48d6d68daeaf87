//! Objects that are read, written and recovered, and drawn lists of turns beside a slow form that keeps whole contents.

ghost use Rattle.std.specs.Prelude.{◌+◌, ◌<◌, ◌≤◌};
ghost use Rattle.pmem_model.specs.Memory.{AllHome};

use object_root::{Phase, Roots, Turn, chosen};
use pmem_layout::{OBJECT_SLOTS_AT, OBJECT_TAGS_AT, SLOT_WORDS, SLOTS, object_slot_at};
use pmem_model::Pmem;
use sls_base::{CORES, CoreNo, LAST_VERSION, Lcg, OBJECTS, ObjId, Version, WORDS};
use std::process::Abort;
use std::test::Fail;

/// The steps of a recovery.
const RECOVERY_STEPS: usize = SLOTS * OBJECTS + 2;
/// The objects that are written: at both ends, and neighbours, whose tags share a line.
const WRITTEN: [ObjId; 5] = [0, 1, 2, 64, 127];

/// A record, one for each number.
fn record(number: u64) -> [u64; SLOT_WORDS] {
    let mut words = [0; SLOT_WORDS];
    for (j, word) in words.iter_mut().enumerate() {
        *word = number.wrapping_mul(1_000).wrapping_add(j as u64);
    }
    words
}

/// What a word is, cached and durable.
fn values(nvm: &Pmem, at: usize) -> (u64, u64)
    requires home { AllHome nvm.now }
    requires in_memory { at < WORDS }
{
    (nvm.read(at), nvm.durable(at))
}

/// The first word of a record, and whether all its words are of one record.
fn first_and_whole(nvm: &Pmem, at: usize) -> (u64, bool)
    requires home { AllHome nvm.now }
    requires in_memory { at + SLOT_WORDS ≤ WORDS }
{
    let first = values(nvm, at).0;
    let mut whole = true;
    for j in 0..SLOT_WORDS {
        whole = whole && values(nvm, at + j).0 == first.wrapping_add(j as u64);
    }
    (first, whole)
}

/// The number of the record that an object has at a version.
fn read(nvm: &Pmem, id: ObjId, v: Version) -> Option<u64>
    requires home { AllHome nvm.now }
    requires object { id < OBJECTS }
{
    let slot = chosen(nvm, id, v)?;
    let (first, whole) = first_and_whole(nvm, object_slot_at(id, slot));
    if whole { Some(first / 1_000) } else { None }
}

/// The same turn over and over.
fn repeat(roots: &mut Roots, nvm: &mut Pmem, turn: &Turn, times: usize)
    requires { AllHome nvm.old }
    ensures { AllHome nvm.new }
{
    for _ in 0..times {
        roots.happen(nvm, turn);
    }
}

/// Objects at version 0, of which none has a record.
fn formatted(nvm: &mut Pmem) -> Roots
    requires { AllHome nvm.old }
    ensures { AllHome nvm.new }
{
    let mut roots = Roots::new(0);
    repeat(&mut roots, nvm, &Turn::Clear, RECOVERY_STEPS);
    roots
}

/// The turns that write the record of a number, and store its tag.
fn save(roots: &mut Roots, nvm: &mut Pmem, id: ObjId, number: u64)
    requires { AllHome nvm.old }
    ensures { AllHome nvm.new }
{
    repeat(roots, nvm, &Turn::Write(id, record(number)), 2);
    roots.happen(nvm, &Turn::Fence);
    repeat(roots, nvm, &Turn::Tag(id), 2);
    roots.happen(nvm, &Turn::Fence);
}

/// The next version is committed.
fn commit(roots: &mut Roots) {
    if roots.version() < LAST_VERSION {
        roots.committed();
    }
}

#[test]
fn of_the_tags_4_and_7_the_greatest_that_is_not_later_is_chosen(
    rt: HostRuntime,
) -> Result<(), Fail> {
    let mut words = vec![in rt.alloc(); 0u64; WORDS]?;
    // Tags are one more than their versions.
    words[OBJECT_TAGS_AT + 6] = 5;
    words[OBJECT_TAGS_AT + 7] = 8;
    let nvm = Pmem::from_words(rt.alloc(), &words)?;
    let at = [chosen(&nvm, 3, 5), chosen(&nvm, 3, 7), chosen(&nvm, 3, 2)];
    assert_eq!(rt; at, [Some(0), Some(1), None]);
    assert_eq!(rt;
        [chosen(&nvm, 3, 4), chosen(&nvm, 3, 6)],
        [Some(0), Some(0)]
    );
    assert_eq!(rt; chosen(&nvm, 4, LAST_VERSION), None);
    Ok(())
}

#[test]
fn a_record_goes_by_turns_into_either_slot(rt: HostRuntime) -> Result<(), Fail> {
    let mut nvm = Pmem::new(rt.alloc())?;
    let mut roots = formatted(&mut nvm);
    for number in 1..5u64 {
        save(&mut roots, &mut nvm, 7, number);
        commit(&mut roots);
    }
    // Object 7 has slots 14 and 15, and tags are one more than their versions.
    assert_eq!(rt;
        [
            values(&nvm, OBJECT_TAGS_AT + 14),
            values(&nvm, OBJECT_TAGS_AT + 15)
        ],
        [(4, 4), (5, 5)]
    );
    assert_eq!(rt; values(&nvm, OBJECT_SLOTS_AT + 64 * 14).1, 3_000);
    assert_eq!(rt; values(&nvm, OBJECT_SLOTS_AT + 64 * 15).1, 4_000);
    assert_eq!(rt;
        [read(&nvm, 7, 4), read(&nvm, 7, 3), read(&nvm, 7, 2)],
        [Some(4), Some(3), None]
    );
    Ok(())
}

#[test]
fn a_tag_above_the_version_is_cleared_and_durably(rt: HostRuntime) -> Result<(), Fail> {
    let mut nvm = Pmem::new(rt.alloc())?;
    let mut roots = formatted(&mut nvm);
    save(&mut roots, &mut nvm, 127, 6);
    let tag = OBJECT_TAGS_AT + 254;
    assert_eq!(rt; values(&nvm, tag), (2, 2));
    roots.happen(&mut nvm, &Turn::Cut);
    repeat(&mut roots, &mut nvm, &Turn::Clear, RECOVERY_STEPS - 1);
    assert_eq!(rt;
        (values(&nvm, tag), roots.phase()),
        ((0, 2), Phase::Cleared)
    );
    // A cut within recovery begins it anew.
    roots.happen(&mut nvm, &Turn::Cut);
    assert_eq!(rt; values(&nvm, tag), (2, 2));
    repeat(&mut roots, &mut nvm, &Turn::Clear, RECOVERY_STEPS);
    assert_eq!(rt;
        (values(&nvm, tag), roots.phase()),
        ((0, 0), Phase::Records)
    );
    Ok(())
}

#[test]
fn steps_answer_at_their_last_and_a_tag_waits_for_the_fence(rt: HostRuntime) -> Result<(), Fail> {
    let mut nvm = Pmem::new(rt.alloc())?;
    let mut roots = formatted(&mut nvm);
    let words = record(9);
    let wrote = [
        roots.write_step(&mut nvm, 5, &words),
        roots.write_step(&mut nvm, 5, &words),
    ];
    let ops = nvm.ops();
    assert_eq!(rt;
        (wrote, roots.tag_step(&mut nvm, 5), nvm.ops()),
        ([false, true], true, ops)
    );
    roots.happen(&mut nvm, &Turn::FenceBy(1));
    assert_eq!(rt; values(&nvm, OBJECT_SLOTS_AT + 64 * 10).1, 0);
    roots.happen(&mut nvm, &Turn::Fence);
    assert_eq!(rt; values(&nvm, OBJECT_SLOTS_AT + 64 * 10).1, 9_000);
    let tagged = [roots.tag_step(&mut nvm, 5), roots.tag_step(&mut nvm, 5)];
    assert_eq!(rt; (tagged, nvm.ops()), ([false, true], ops.saturating_add(4)));
    Ok(())
}

#[test]
fn turns_commit_where_all_that_they_write_has_its_tag(rt: HostRuntime) -> Result<(), Fail> {
    let mut nvm = Pmem::new(rt.alloc())?;
    let mut roots = formatted(&mut nvm);
    let write = Turn::Write(3, record(4));
    let whole = [
        write,
        write,
        Turn::Fence,
        Turn::Tag(3),
        Turn::Tag(3),
        Turn::Fence,
    ];
    let short = [write, write, Turn::Fence, Turn::Tag(3), Turn::Fence];
    let clears = [Turn::Clear; RECOVERY_STEPS];
    assert_eq!(rt;
        (roots.commit_and_cut(&mut nvm, &short), roots.version()),
        (false, 0)
    );
    roots.play(&mut nvm, &clears);
    assert_eq!(rt; (read(&nvm, 3, 0), roots.phase()), (None, Phase::Records));
    assert_eq!(rt;
        (roots.commit_and_cut(&mut nvm, &whole), roots.version()),
        (true, 1)
    );
    roots.play(&mut nvm, &clears);
    assert_eq!(rt;
        (read(&nvm, 3, 1), roots.phase()),
        (Some(4), Phase::Records)
    );
    Ok(())
}

/// What is saved and what is to be, of the objects that are written, and how many turns there are before a cut.
#[derive(Clone, Copy)]
struct Slow {
    saved: [Option<u64>; 5],
    next: [Option<u64>; 5],
    turns_left: u64,
}

/// A word of the objects' tags and slots.
fn drawn_word(draws: &mut Lcg) -> usize
    ensures { result < WORDS }
{
    OBJECT_TAGS_AT + (draws.next() >> 33) as usize % 16_000
}

/// Some of what others do.
fn others_do(roots: &mut Roots, nvm: &mut Pmem, draws: &mut Lcg)
    requires { AllHome nvm.old }
    ensures { AllHome nvm.new }
{
    for _ in 0..draws.next() >> 62 {
        let core = (draws.next() >> 61) as CoreNo;
        let at = drawn_word(draws);
        let turn = match draws.next() >> 62 {
            0 => Turn::FlushBy(core, at),
            1 => Turn::FenceBy(core),
            _ => Turn::WriteBack(at),
        };
        roots.happen(nvm, &turn);
    }
}

/// Compares what is read with what is saved.
fn compare(rt: &impl Abort, slow: &Slow, roots: &Roots, nvm: &Pmem) -> Result<(), Fail>
    requires { AllHome nvm.now }
{
    for (id, saved) in WRITTEN.iter().zip(slow.saved.iter()) {
        assert_eq!(rt; read(nvm, *id, roots.version()), *saved, "object {id}");
    }
    Ok(())
}

/// What others do, and then a turn, unless it is time for the cut. It answers whether the turn came.
fn turn_comes(
    rt: &impl Abort,
    slow: &mut Slow,
    roots: &mut Roots,
    nvm: &mut Pmem,
    draws: &mut Lcg,
    turn: &Turn,
) -> Result<bool, Fail>
    requires { AllHome nvm.old }
    ensures { AllHome nvm.new }
{
    others_do(roots, nvm, draws);
    if slow.turns_left == 0 {
        return Ok(false);
    }
    slow.turns_left -= 1;
    roots.happen(nvm, turn);
    compare(rt, slow, roots, nvm)?;
    Ok(true)
}

/// The turns of a checkpoint, unless the cut comes first. It answers whether it may be committed.
fn checkpoint(
    rt: &impl Abort,
    slow: &mut Slow,
    roots: &mut Roots,
    nvm: &mut Pmem,
    draws: &mut Lcg,
) -> Result<bool, Fail>
    requires { AllHome nvm.old }
    ensures { AllHome nvm.new }
{
    let mut may_commit = true;
    for round in 0..6 {
        for (k, id) in WRITTEN.iter().enumerate() {
            let turn = match (round, slow.next[k]) {
                (0 | 1, Some(number)) if slow.saved[k] != Some(number) => Turn::Write(
                    *id,
                    record(number),
                ),
                (3 | 4, Some(number)) if slow.saved[k] != Some(number) => Turn::Tag(*id),
                (2 | 5, _) if k == 0 => Turn::Fence,
                _ => Turn::FenceBy(3),
            };
            may_commit = may_commit && turn_comes(rt, slow, roots, nvm, draws, &turn)?;
        }
    }
    Ok(may_commit)
}

/// A cut, and recovery, which is perhaps cut itself.
fn recover(roots: &mut Roots, nvm: &mut Pmem, draws: &mut Lcg)
    requires { AllHome nvm.old }
    ensures { AllHome nvm.new }
{
    roots.happen(nvm, &Turn::Cut);
    let steps = (draws.next() >> 55) as usize;
    repeat(roots, nvm, &Turn::Clear, steps);
    others_do(roots, nvm, draws);
    roots.happen(nvm, &Turn::Cut);
    repeat(roots, nvm, &Turn::Clear, RECOVERY_STEPS);
}

/// A checkpoint of drawn contents, which is committed or cut.
fn drawn_epoch(
    rt: &impl Abort,
    slow: &mut Slow,
    roots: &mut Roots,
    nvm: &mut Pmem,
    draws: &mut Lcg,
) -> Result<bool, Fail>
    requires { AllHome nvm.old }
    ensures { AllHome nvm.new }
{
    slow.next = slow.saved;
    for next in slow.next.iter_mut() {
        let number = draws.next() >> 40;
        if number % 2 == 1 {
            *next = Some(number);
        }
    }
    slow.turns_left = draws.next() >> 58;
    let commits = checkpoint(rt, slow, roots, nvm, draws)?;
    if commits {
        commit(roots);
        slow.saved = slow.next;
    } else {
        recover(roots, nvm, draws);
    }
    compare(rt, slow, roots, nvm)?;
    Ok(commits)
}

#[test]
fn drawn_checkpoints_and_cuts_read_as_whole_contents(rt: HostRuntime) -> Result<(), Fail> {
    let mut nvm = Pmem::new(rt.alloc())?;
    let mut roots = formatted(&mut nvm);
    let mut draws = Lcg { state: 35 };
    let mut slow = Slow {
        saved: [None; 5],
        next: [None; 5],
        turns_left: 0,
    };
    let mut commits = 0u64;
    for _ in 0..40 {
        if drawn_epoch(&rt, &mut slow, &mut roots, &mut nvm, &mut draws)? {
            commits = commits.saturating_add(1);
        }
    }
    assert_eq!(rt; roots.version(), commits);
    assert!(rt; commits > 10 && commits < 30, "{commits} commits");
    Ok(())
}
