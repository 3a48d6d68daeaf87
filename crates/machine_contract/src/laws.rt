//! Laws of the text, which show that it says what it should. Each function does nothing: its contract is the law.

ghost use Rattle.std.specs.Prelude.{◌≡◌, ◌≢◌, ℕ, ◌+◌, ◌*◌, ◌<◌, ◌≤◌, false, List, Option, length, All};
ghost use Rattle.pmem_model.specs.Memory.{Memory};
ghost use Rattle.plain_state.specs.declared.label.Label.{Label};
ghost use Rattle.plain_model.specs.Worlds.{World};
ghost use Rattle.plain_model.specs.Cost.{cost};
ghost use Rattle.plain_model.specs.Play as plain;
ghost use Rattle.plain_model.specs.MayStep.{MayPlay};
ghost use Rattle.machine_contract.specs.declared.answers.Did.{Did};
ghost use Rattle.machine_contract.specs.declared.answers.Did.TheVariants as did;
ghost use Rattle.machine_contract.specs.declared.answers.Why.TheVariants as why;
ghost use Rattle.machine_contract.specs.declared.answers.Event.{Event};
ghost use Rattle.machine_contract.specs.declared.answers.Answer.{Answer};
ghost use Rattle.machine_contract.specs.Side.{Mode, Side, Running, InCheckpoint, IsStarting, IsUp, IsSound, begun, core_at};
ghost use Rattle.machine_contract.specs.Lawful.{IsLawful, Begins, OwesLess};
ghost use Rattle.machine_contract.specs.Courses.{Course, label_of, labels_of, played};
ghost use Rattle.machine_contract.specs.Shown.{Seen};
ghost use Rattle.machine_contract.specs.Begins.{IsBooted};
ghost use Rattle.machine_contract.specs.Goes.{Goes};
ghost use Rattle.machine_contract.specs.Play.{IsPossible, IsPlayed, IsReleased};
ghost use Rattle.machine_contract.specs.Budgets.{budget, allowed};
ghost use Rattle.machine_contract.specs.Rounds.{rounds};
ghost use Rattle.machine_contract.specs.Laws.{MayStepIf, NoCommit, AreTurns, AreLeads, StaysInEpoch, LetsGo, AreApart, fallen, prepared_by, away_count};

use crate::bounds::{COPY_TURNS, HOT_EPOCHS, HOT_PAGES, MOST_DUE, MOST_PREPARES, START_TURNS};
use crate::machine::Machine;
use sls_base::LEADER;

/// The bounds, as numbers.
pub fn bounds()
    ensures start { START_TURNS ≡ 5184 }
    ensures due { MOST_DUE ≡ 7 }
    ensures copy { COPY_TURNS ≡ 4 }
    ensures prepares { MOST_PREPARES ≡ 7 }
    ensures pages { HOT_PAGES ≡ 32 }
    ensures epochs { HOT_EPOCHS ≡ 3 }
{}

/// The world of a course goes on as the plain machine's play of the labels.
pub fn course_is_play()
    ensures { (c : Course) (labels : List Label) → (played c labels).world ≡ plain.play c.world labels }
{}

/// A label that an answer gives may befall the world.
pub fn labels_may_befall<M: Machine>()
    ensures { (event : Event) (answer : Answer) (old : Seen) (c : Course) (new : Seen)
        → IsPossible (length old.side.cores) event → length c.world.now.cores ≡ length old.side.cores
        → Goes M.format event answer old c new → MayStepIf c.world (label_of event answer) }
{}

/// Labels without a commit leave the saved copy.
pub fn only_commits_save()
    ensures { (w : World) (labels : List Label) → NoCommit labels → (plain.play w labels).saved ≡ w.saved }
{}

/// The labels of a play may befall the world one after another, the last machine shows the course after them, and what
/// was released is a first part of what the saved copy has put.
pub fn play_is_play<M: Machine>()
    ensures may { (events : List Event) (answers : List Answer) (old : M) (c : Course) (new : M)
        → IsPlayed M.format M.seen M.shows events answers old c new → M.shows old c
        → All (IsPossible (length (M.seen old).side.cores)) events → MayPlay c.world (labels_of events answers) }
    ensures shows { (events : List Event) (answers : List Answer) (old : M) (c : Course) (new : M)
        → IsPlayed M.format M.seen M.shows events answers old c new → M.shows old c
        → M.shows new (played c (labels_of events answers)) }
    ensures released { (events : List Event) (answers : List Answer) (old : M) (c : Course) (new : M)
        → IsPlayed M.format M.seen M.shows events answers old c new → M.shows old c
        → IsReleased (played c (labels_of events answers)).world }
{}

/// Turns of which as many leave fewer turns to the leader as were left end what the machine was at: formatting,
/// recovery or a checkpoint.
pub fn turns_come_to_an_end<M: Machine>()
    ensures { (events : List Event) (answers : List Answer) (old : M) (c : Course) (new : M)
        (h : IsPlayed M.format M.seen M.shows events answers old c new) → AreTurns events → IsSound (M.seen new).side
        → (M.seen old).side.left ≤ fallen M.format M.seen M.shows events answers old c new h
        → (M.seen new).side.mode ≡ Running }
{}

/// Until a commit a page is prepared by so many turns at most.
pub fn pages_are_prepared_seldom<M: Machine>()
    ensures counts { (events : List Event) (answers : List Answer) (old : M) (c : Course) (new : M) (page : ℕ)
        → IsPlayed M.format M.seen M.shows events answers old c new → AreTurns events → StaysInEpoch answers
        → (M.seen new).side.spent page ≡ (M.seen old).side.spent page + prepared_by answers page }
    ensures most { (events : List Event) (answers : List Answer) (old : M) (c : Course) (new : M) (page : ℕ)
        → IsPlayed M.format M.seen M.shows events answers old c new → AreTurns events → StaysInEpoch answers
        → (M.seen old).side.spent page ≤ MOST_PREPARES
        → (M.seen old).side.spent page + prepared_by answers page ≤ MOST_PREPARES }
{}

/// On one core as many turns of the leader as were left end the checkpoint.
pub fn leader_ends_its_checkpoint<M: Machine>()
    ensures { (events : List Event) (answers : List Answer) (old : M) (c : Course) (new : M)
        → IsPlayed M.format M.seen M.shows events answers old c new → length (M.seen old).side.cores ≡ 1
        → AreTurns events → AreLeads answers → IsSound (M.seen new).side
        → (M.seen old).side.left ≤ length answers → (M.seen new).side.mode ≡ Running }
{}

/// What a machine begins with is sound.
pub fn beginning_is_sound()
    ensures { (mode : Mode) (left cores : ℕ) (given : ℕ → Option ℕ) → IsStarting mode → 0 < left
        → IsSound (begun mode left cores given) }
{}

/// While the machine is up, each turn of a core that has something in hand lowers what the core owes (`busy`). In a
/// checkpoint whose board isn't open yet, no core but the leader comes to owe anything by its turn (`free`).
pub fn cores_let_go()
    ensures busy { (w : World) (old : Side) (core : ℕ) (answer : Did) (new : Side) → IsSound old → IsUp old.mode
        → 0 < (core_at old core).due → IsLawful w old core answer new → OwesLess old core new }
    ensures free { (w : World) (old : Side) (core : ℕ) (answer : Did) (new : Side) → IsSound old → InCheckpoint old.mode
        → old.is_open ≡ false → core ≢ LEADER → IsLawful w old core answer new → LetsGo old core new }
{}

/// A turn waits only for another core that has something in hand (`waits`). A page that comes home leaves fewer entries
/// away (`home`), and while the machine runs no turn leaves more (`laid`).
pub fn waits_come_to_an_end()
    ensures waits { (w : World) (old : Side) (core page other : ℕ) (new : Side) → IsSound old
        → IsLawful w old core (did.Inner (why.Wait page other)) new
        → (0 < (core_at old other).due) × (other ≢ core) }
    ensures home { (w : World) (old : Side) (core page : ℕ) (new : Side)
        → IsLawful w old core (did.Inner (why.Home page)) new → away_count new < away_count old }
    ensures laid { (w : World) (old : Side) (core : ℕ) (answer : Did) (new : Side) → old.mode ≡ Running
        → IsLawful w old core answer new → away_count new ≤ away_count old }
{}

/// No page is prepared by two cores, and none that is away is; no entry is held by two. So it is from the boot on,
/// through every play.
pub fn hands_stay_apart<M: Machine>()
    ensures booted { (cores : ℕ) (nvm : Memory) (m : Seen) → IsBooted cores nvm m → AreApart m.side }
    ensures plays { (events : List Event) (answers : List Answer) (old : M) (c : Course) (new : M)
        → IsPlayed M.format M.seen M.shows events answers old c new → M.shows old c → AreApart (M.seen old).side
        → AreApart (M.seen new).side }
{}

/// What is counted of operations, and the turns in which more may be done for what the machine is at, rise together by
/// no more than the answers allow: two for a retired tick, one for a turn of preparing a page, the cost of each
/// checkpoint that begins, its helpers' operations among them, and the turns of each start.
pub fn operations_are_paid_for<M: Machine>()
    ensures booted { (cores : ℕ) (nvm : Memory) (m : Seen) → IsBooted cores nvm m
        → m.ops + budget m.side ≤ nvm.ops + START_TURNS }
    ensures plays { (events : List Event) (answers : List Answer) (old : M) (c : Course) (new : M)
        → IsPlayed M.format M.seen M.shows events answers old c new → M.shows old c
        → (M.seen new).ops + budget (M.seen new).side
        ≤ (M.seen old).ops + budget (M.seen old).side + allowed events answers c }
{}

/// With turns in rounds from core 0 a checkpoint ends: as long as it is in flight, there were so many rounds at most
/// since its board wasn't open yet (`rounds`), and fewer than its cost since it began (`cost`).
pub fn rounds_end_a_checkpoint<M: Machine>()
    ensures rounds { (count : ℕ) (answers : List Answer) (old : M) (c : Course) (new : M)
        → IsPlayed M.format M.seen M.shows (rounds (length (M.seen old).side.cores) count) answers old c new
        → M.shows old c → 0 < length (M.seen old).side.cores
        → InCheckpoint (M.seen old).side.mode → (M.seen old).side.is_open ≡ false → InCheckpoint (M.seen new).side.mode
        → count + (M.seen new).side.left ≤ (M.seen old).side.left + MOST_DUE }
    ensures cost { (w : World) (before : Side) (count : ℕ) (answers : List Answer) (old : M) (c : Course) (new : M)
        → Begins w before (M.seen old).side
        → IsPlayed M.format M.seen M.shows (rounds (length (M.seen old).side.cores) count) answers old c new
        → M.shows old c → 0 < length (M.seen old).side.cores → InCheckpoint (M.seen new).side.mode → count < cost w }
{}
