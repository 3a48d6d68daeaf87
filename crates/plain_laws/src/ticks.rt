//! What a tick changes, what it reaches, and on what of a world it depends.

ghost use Rattle.std.specs.Prelude.{◌≡◌, ◌↔◌, ℕ, ◌<◌, Some, None, slice_index};
ghost use Rattle.sls_base.specs.declared.thread.Thread.{Thread};
ghost use Rattle.plain_state.specs.declared.calls.TheConstants.{CALL_NUMBER};
ghost use Rattle.plain_state.specs.declared.calls.Call.{Call};
ghost use Rattle.plain_state.specs.declared.calls.Refusal.{Refusal};
ghost use Rattle.plain_model.specs.Worlds.{World};
ghost use Rattle.plain_model.specs.Effects.{answers};
ghost use Rattle.plain_model.specs.Calls.{call_named};
ghost use Rattle.plain_model.specs.CallRefusals.{refusal_of};
ghost use Rattle.plain_model.specs.CallEffects.{ecall};
ghost use Rattle.plain_model.specs.Instructions.{instruction};
ghost use Rattle.plain_model.specs.Refusals.{refusal_number};
ghost use Rattle.plain_model.specs.Ticks.{Chosen, chosen, tick, touches, must_store};
ghost use Rattle.plain_laws.specs.Places.{IsPlaced};
ghost use Rattle.plain_laws.specs.Bounds.{HasThreads};
ghost use Rattle.plain_laws.specs.Ticks.{ChangesOnly, KeepsPages, KeepsPageNumbers, RefusedBy, IsRefused, OnlyAnswers, PassAtMost, IsAlike};

/// A refused call changes x10 and pc alone, and a number that names no call is refused so: those above 18. As a tick
/// it changes of the thread also its state and its place, and of the world nothing else.
pub fn refused_call_answers_alone()
    ensures refused { (w : World) (id : ℕ) (thread : Thread) (refusal : Refusal) → RefusedBy w id thread refusal
        → ecall w id thread ≡ answers thread (refusal_number refusal) }
    ensures unnamed { (thread : Thread) → (call_named thread ≡ None) ↔ (18 < slice_index thread.x CALL_NUMBER) }
    ensures tick { (w : World) (core : ℕ) (c : Chosen) (refusal : Refusal) → chosen w.now core ≡ Some c
        → IsRefused w c refusal → OnlyAnswers w core c (refusal_number refusal) }
{}

/// A core that has no thread to run changes nothing. Else a tick changes only the thread, what its effect writes, the
/// scheduler's queue and the core; and it keeps each page to which it doesn't store, and the numbers of all.
pub fn tick_changes_what_it_names()
    ensures idle { (w : World) (core : ℕ) → chosen w.now core ≡ None → tick w core ≡ w }
    ensures only { (w : World) (core : ℕ) (c : Chosen) → chosen w.now core ≡ Some c → ChangesOnly w core c }
    ensures pages { (w : World) (core : ℕ) (c : Chosen) → IsPlaced w.now
        → chosen w.now core ≡ Some c → KeepsPages w core c }
    ensures numbers { (w : World) (core : ℕ) → IsPlaced w.now → KeepsPageNumbers w core }
{}

/// A tick touches at most 4 pages, and stores to at most 2 of them.
pub fn tick_reaches_few_pages()
    ensures touched { (w : World) (core : ℕ) → HasThreads w.now → PassAtMost 4 (touches w core) }
    ensures stored { (w : World) (core : ℕ) → HasThreads w.now → PassAtMost 2 (must_store w core) }
{}

/// What an instruction does depends on the objects, the waiting inputs, the numbers in use and the counts of entries
/// alone.
pub fn effect_depends_on_little()
    ensures { (w v : World) (id : ℕ) (thread : Thread) → IsAlike w v
        → instruction w id thread ≡ instruction v id thread }
{}
