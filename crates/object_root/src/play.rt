//! Whole lists of what happens between two commits, with what others do in between, and power cuts.

ghost use Rattle.std.specs.Prelude.{◌≡◌, ◌↔◌, ℕ, Option, All, IsTrue};
ghost use Rattle.pmem_model.specs.Words.{Word};
ghost use Rattle.pmem_model.specs.Memory.{AllHome, word_at};
ghost use Rattle.kobj_codec.specs.declared.obj.Obj.{Obj};
ghost use Rattle.object_root.specs.declared.stage.Phase.TheVariants as phases;
ghost use Rattle.object_root.specs.Room.{Room, AllIdle};
ghost use Rattle.object_root.specs.Shows.{ObjectsShow};
ghost use Rattle.object_root.specs.Turns.{Happens, Plays, Fits, AreIdle, AreAllIdle, WritesAll, HasTag, CanCommit, Outcome};

use crate::roots::Roots;
use crate::stage::{Phase, Stage};
use pmem_layout::{SLOT_WORDS, line_at};
use pmem_model::Pmem;
use sls_base::{CORES, CoreNo, LAST_VERSION, LEADER, OBJECTS, ObjId, WORDS};

/// What happens next. What names an object, a core or a word that there isn't does nothing.
#[derive(Clone, Copy)]
pub enum Turn {
    /// A step that writes this record of an object.
    Write(ObjId, [u64; SLOT_WORDS]),
    /// A step that stores the tag of an object.
    Tag(ObjId),
    /// A fence by the leader, of records or of tags.
    Fence,
    /// A step of recovery.
    Clear,
    /// A flush of the line of a word by any core.
    FlushBy(CoreNo, usize),
    /// A fence by any core, which the leader doesn't count on.
    FenceBy(CoreNo),
    /// The write-back of a word.
    WriteBack(usize),
    /// A power cut, behind which recovery begins.
    Cut,
}

impl Roots {
    /// One turn.
    pub fn happen(&mut self, nvm: &mut Pmem, turn: &Turn)
        requires { AllHome nvm.old }
        ensures home { AllHome nvm.new }
        ensures happens { Happens turn.now self.old (word_at nvm.old) self.new (word_at nvm.new) }
        ensures idle { AreIdle turn.now self.old self.new }
        ensures shows { (v : ℕ) (saved next : ℕ → Option Obj) → Fits next turn.now
            → ObjectsShow self.old (word_at nvm.old) v saved next
            → ObjectsShow self.new (word_at nvm.new) v saved next }
    {
        match turn {
            Turn::Write(id, words) if (*id as usize) < OBJECTS => {
                self.write_step(nvm, *id, words);
            }
            Turn::Tag(id) if (*id as usize) < OBJECTS => {
                self.tag_step(nvm, *id);
            }
            Turn::Fence => {
                nvm.fence(LEADER);
                self.fenced();
            }
            Turn::Clear => {
                self.clear_step(nvm);
            }
            Turn::FlushBy(core, at) if (*core as usize) < CORES && *at < WORDS => {
                nvm.flush(*core, line_at(*at), 1);
            }
            Turn::FenceBy(core) if (*core as usize) < CORES => nvm.fence(*core),
            Turn::WriteBack(at) if *at < WORDS => nvm.write_back(*at),
            Turn::Cut => {
                nvm.cut();
                *self = Roots::new(self.version());
            }
            _ => {}
        }
    }

    /// Turns, one after another.
    pub fn play(&mut self, nvm: &mut Pmem, turns: &[Turn])
        requires { AllHome nvm.old }
        ensures home { AllHome nvm.new }
        ensures plays { Plays self.old (word_at nvm.old) turns.now self.new (word_at nvm.new) }
        ensures idle { AreAllIdle turns.now self.old self.new }
        ensures shows { (v : ℕ) (saved next : ℕ → Option Obj) → All (Fits next) turns.now
            → ObjectsShow self.old (word_at nvm.old) v saved next
            → ObjectsShow self.new (word_at nvm.new) v saved next }
    {
        for turn in turns {
            self.happen(nvm, turn);
        }
    }

    /// Turns from a commit on, and then the next commit, where each object that they write has its tag and tags are
    /// fenced, and a power cut, behind which recovery begins. It answers whether there was the commit.
    pub fn commit_and_cut(&mut self, nvm: &mut Pmem, turns: &[Turn]) -> bool
        requires { AllHome nvm.old }
        ensures home { AllHome nvm.new }
        ensures idle { AllIdle self.new }
        // It commits exactly where that is possible after the turns.
        ensures commits { (r : Room) × (f : ℕ → Word) × Plays self.old (word_at nvm.old) turns.now r f
            × (IsTrue result ↔ CanCommit r turns.now) }
        // The objects that no turn is about are to stay as they are saved.
        ensures shows { (v : ℕ) (saved next after : ℕ → Option Obj) → AllIdle self.old → All (Fits next) turns.now
            → WritesAll turns.now saved next → ObjectsShow self.old (word_at nvm.old) v saved next
            → Outcome result self.new (word_at nvm.new) v saved next after }
    {
        self.play(nvm, turns);
        let commits = self.version() < LAST_VERSION && self.have_tags(turns);
        if commits {
            self.committed();
        }
        nvm.cut();
        *self = Roots::new(self.version());
        commits
    }

    /// Whether tags are fenced, and each object that turns write has its own.
    fn have_tags(&self, turns: &[Turn]) -> bool
        ensures { IsTrue result ↔ ((self.now.phase ≡ phases.Tagged) × All (HasTag self.now) turns.now) }
    {
        self.phase() == Phase::Tagged && turns.iter().all(|turn| self.has_tag(turn))
    }

    /// Whether the object that a turn writes has its tag.
    fn has_tag(&self, turn: &Turn) -> bool
        ensures { IsTrue result ↔ HasTag self.now turn.now }
    {
        match turn {
            Turn::Write(id, _) if (*id as usize) < OBJECTS => {
                matches!(self.stage(*id), Stage::TagFlushed(_))
            }
            _ => true,
        }
    }
}
