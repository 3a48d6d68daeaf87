//! Turns of cores.

ghost use Rattle.std.specs.Prelude.{◌≡◌, ◌⊎◌, ◌<◌, ◌↔◌, ℕ, IsTrue};
ghost use Rattle.sls_base.specs.declared.fixed.TheConstants.{LEADER as THE_LEADER};
ghost use Rattle.pmem_model.specs.Memory.{AllHome, KeepsCounts, count_up, word_at};
ghost use Rattle.pmem_operations.specs.Operations.{IsAtMostOne};
ghost use Rattle.durable_state.specs.Parts.{Parts};
ghost use Rattle.tree_restore.specs.Restores.{RestoreShows, turns_left};
ghost use Rattle.core_turns.specs.declared.running.Running.{Running as Cores};
ghost use Rattle.checkpoint_turns.specs.declared.checkpoint.Checkpoint.{Checkpoint};
ghost use Rattle.machine_contract.specs.Side.{IsStarting};
ghost use Rattle.machine_contract.specs.Courses.{Course};
ghost use Rattle.kernel_machine.specs.declared.work.FirstFormat.{FirstFormat};
ghost use Rattle.kernel_machine.specs.declared.work.Restoring.{Restoring};
ghost use Rattle.kernel_machine.specs.Sides.{left_of, mode_of};
ghost use Rattle.kernel_machine.specs.Shows.{IsAt, IsLive};
ghost use Rattle.kernel_machine.specs.Turns.{BeginsRecovery, ComesUp, StaysMade, TakesTurn};

use crate::kernel::Kernel;
use crate::work::{Restoring as Recovers, Work};
use checkpoint_turns::Led;
use core_turns::{Running, Turn};
use machine_contract::{Did, Why};
use plain_state::Reply;
use pmem_model::Pmem;
use sls_base::{CoreNo, LEADER, PAGES};
use std::mem;
use tree_restore::Recovery;

impl Kernel {
    /// One turn of a core: a step of formatting, of recovery, of a checkpoint or of preparing a page, or else a tick.
    pub fn take_turn(&mut self, core: CoreNo) -> Did
        requires core { core < self.old.cores }
        requires live { IsLive self.old }
        ensures goes { (c : Course) → IsAt self.old c → TakesTurn self.old c core result self.new }
        ensures made { StaysMade self.old self.new }
        ensures cores { self.new.cores ≡ self.old.cores }
        ensures fewer { IsStarting (mode_of self.old.work) → core ≡ THE_LEADER
            → left_of self.new.work < left_of self.old.work }
    {
        match &self.work {
            Work::Runs(_) => self.run(core),
            Work::Saves(_) => self.save(core),
            Work::Formats(_) => {
                if core == LEADER {
                    self.format()
                } else {
                    Did::Inner(Why::Paused)
                }
            }
            Work::Recovers(_) => {
                if core == LEADER {
                    self.recover()
                } else {
                    Did::Inner(Why::Paused)
                }
            }
            Work::Between => Did::Inner(Why::Paused),
        }
    }

    /// A turn of the leader that stores the first version. Behind it comes recovery, as after each start.
    fn format(&mut self) -> Did
        requires formats { (s : FirstFormat) × (self.old.work ≡ Work.Formats s) }
        requires live { IsLive self.old }
        ensures goes { (c : Course) → IsAt self.old c → TakesTurn self.old c THE_LEADER result self.new }
        ensures made { StaysMade self.old self.new }
        ensures cores { self.new.cores ≡ self.old.cores }
        ensures fewer { left_of self.new.work < left_of self.old.work }
    {
        // Their contracts say what stands at the end of formatting, and that the first world is sound.
        first_format::laws::formatting();
        first_format::laws::formatted_words_stand();
        plain_laws::whole::worlds_are_sound();
        let Work::Formats(start) = &mut self.work else {
            return Did::Inner(Why::Format);
        };
        if start.formatting.step(&start.image, &mut self.nvm) {
            self.work = formatted(mem::replace(&mut self.work, Work::Between), &self.nvm);
        }
        Did::Inner(Why::Format)
    }

    /// A turn of the leader by which the saved version is recovered, or the last one, by which the machine comes up.
    fn recover(&mut self) -> Did
        requires recovers { (s : Restoring) × (self.old.work ≡ Work.Recovers s) }
        requires live { IsLive self.old }
        ensures goes { (c : Course) → IsAt self.old c → TakesTurn self.old c THE_LEADER result self.new }
        ensures made { StaysMade self.old self.new }
        ensures cores { self.new.cores ≡ self.old.cores }
        ensures fewer { left_of self.new.work < left_of self.old.work }
    {
        // Their contracts say which pages may be stored to when the machine is up.
        version_rooms::laws::at_rest();
        page_store::laws::states();
        durable_state::laws::parts_are_of_one();
        let Work::Recovers(start) = &mut self.work else {
            return Did::Inner(Why::Recover);
        };
        let is_first = start.is_first;
        if !ends_recovery(start, &mut self.nvm) {
            return Did::Inner(if is_first { Why::Format } else { Why::Recover });
        }
        self.work = came_up(mem::replace(&mut self.work, Work::Between), &self.nvm);
        self.spent = [0; PAGES];
        Did::Up(version_commit::version(&self.nvm))
    }

    /// A turn of a core of a machine that runs.
    fn run(&mut self, core: CoreNo) -> Did
        requires core { core < self.old.cores }
        requires runs { (k : Cores) × (self.old.work ≡ Work.Runs k) }
        requires live { IsLive self.old }
        ensures goes { (c : Course) → IsAt self.old c → TakesTurn self.old c core result self.new }
        ensures made { StaysMade self.old self.new }
        ensures cores { self.new.cores ≡ self.old.cores }
    {
        let Work::Runs(running) = &mut self.work else {
            return Did::Idle;
        };
        match running.turn(&mut self.nvm, core, &self.accepted) {
            Turn::Ticked(reply) => match reply {
                Reply::Idle => Did::Idle,
                Reply::Wished => {
                    self.wish = true;
                    Did::Retired
                }
                _ => Did::Retired,
            },
            Turn::Prepared(page) => {
                self.spent[page as usize] += 1;
                Did::Inner(Why::Prepare(page))
            }
            Turn::Waits(page, other) => Did::Inner(Why::Wait(page, other)),
        }
    }

    /// A turn of a core within a checkpoint.
    fn save(&mut self, core: CoreNo) -> Did
        requires core { core < self.old.cores }
        requires saves { (s : Checkpoint) × (self.old.work ≡ Work.Saves s) }
        requires live { IsLive self.old }
        ensures goes { (c : Course) → IsAt self.old c → TakesTurn self.old c core result self.new }
        ensures made { StaysMade self.old self.new }
        ensures cores { self.new.cores ≡ self.old.cores }
    {
        // Their contracts say that the durable version word tells whether a turn committed, and that no page that is
        // protected or fresh has a slot of the version that was committed.
        checkpoint_turns::laws::version_word();
        durable_state::laws::parts_are_of_one();
        leader_helper::laws::commit_point();
        page_store::laws::states();
        let Work::Saves(checkpoint) = &mut self.work else {
            return Did::Idle;
        };
        match checkpoint.turn(&mut self.nvm, core, &self.accepted) {
            Led::Prepared(page) => {
                self.spent[page as usize] += 1;
                Did::Inner(Why::Prepare(page))
            }
            Led::Waits | Led::Led => Did::Inner(Why::Lead),
            Led::Paused => Did::Inner(Why::Paused),
            Led::Committed(version) => {
                self.spent = [0; PAGES];
                Did::Committed(version)
            }
            Led::Ended => {
                self.work = resumed(mem::replace(&mut self.work, Work::Between));
                Did::Inner(Why::Lead)
            }
        }
    }
}

/// Behind formatting comes recovery of what was stored.
fn formatted(work: Work, nvm: &Pmem) -> Work
    ensures { (s : FirstFormat) → work ≡ Work.Formats s → BeginsRecovery result nvm.now }
{
    match work {
        Work::Formats(start) => Work::Recovers(Recovers {
            recovery: Recovery::new(nvm),
            calls: start.calls,
            is_first: true,
        }),
        work => work,
    }
}

/// A step of recovery, unless it is at its end already. True exactly where it is at its end then.
fn ends_recovery(start: &mut Recovers, nvm: &mut Pmem) -> bool
    requires home { AllHome nvm.old }
    ensures last { IsTrue result ↔ (turns_left start.new.recovery ≡ 0) }
    ensures left { (turns_left start.new.recovery < turns_left start.old.recovery)
        ⊎ (turns_left start.new.recovery ≡ 0) }
    ensures one { (nvm.new.ops ≡ nvm.old.ops) ⊎ (nvm.new.ops ≡ count_up nvm.old.ops) }
    ensures home { AllHome nvm.new }
    ensures counts { KeepsCounts nvm.old nvm.new }
    ensures operation { IsAtMostOne THE_LEADER (word_at nvm.old) (word_at nvm.new) }
    ensures shows { (v : ℕ) (saved : Parts) → RestoreShows start.old.recovery (word_at nvm.old) v saved
        → RestoreShows start.new.recovery (word_at nvm.new) v saved }
    ensures rest { start.new ≡ record start.old { recovery = start.new.recovery } }
{
    start.recovery.is_at_end() || start.recovery.step(nvm)
}

/// The cores run what was recovered.
fn came_up(work: Work, nvm: &Pmem) -> Work
    ensures { (s : Restoring) → work ≡ Work.Recovers s → turns_left s.recovery ≡ 0
        → ComesUp s.recovery nvm.now result }
{
    match work {
        Work::Recovers(start) => {
            Work::Runs(Running::begin(start.calls, start.recovery.finish(nvm)))
        }
        work => work,
    }
}

/// The cores run on behind a checkpoint.
fn resumed(work: Work) -> Work
    ensures { (s : Checkpoint) → work ≡ Work.Saves s → result ≡ Work.Runs s.running }
{
    match work {
        Work::Saves(checkpoint) => Work::Runs(checkpoint.running),
        work => work,
    }
}
