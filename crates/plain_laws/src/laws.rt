//! Laws of the plain machine, which show that its definitions are the right ones. Each function does nothing: its
//! contract is the law.

ghost use Rattle.std.specs.Prelude.{◌≡◌, ◌↔◌, ℕ, ◌+◌, ◌*◌, ◌<◌, ◌≤◌, true, List, [], length};
ghost use Rattle.sls_base.specs.declared.limits.TheConstants.{OBJECTS, PAGES};
ghost use Rattle.sls_base.specs.declared.image.Image.{Image};
ghost use Rattle.sls_base.specs.declared.thread.ThreadState.{ThreadState};
ghost use Rattle.plain_state.specs.declared.label.Label.{Label};
ghost use Rattle.plain_model.specs.States.{State};
ghost use Rattle.plain_model.specs.Worlds.{World, free_objects, is_used_object};
ghost use Rattle.plain_model.specs.CallEffects.{new_id};
ghost use Rattle.plain_model.specs.Ticks.{tick};
ghost use Rattle.plain_model.specs.Sweep.{swept, is_reached};
ghost use Rattle.plain_model.specs.Play.{after, commit, cut, play, state_after_cut};
ghost use Rattle.plain_model.specs.Cost.{cost};
ghost use Rattle.plain_model.specs.MayStep.{MayStep};
ghost use Rattle.plain_laws.specs.Plays.{Both, Always, MayAlways};
ghost use Rattle.plain_laws.specs.Places.{StandsIn, IsPlaced, IsPresent, threads_in};
ghost use Rattle.plain_model.specs.Initial.{IsAccepted, initial, first_world};
ghost use Rattle.plain_laws.specs.Sound.{HaveForms, NameWhatIs, AreApart};
ghost use Rattle.plain_laws.specs.Laws.{IsLeast, IsToldBySweep, IsFirstPart, IsInOrder, IsLeastFree, AreFreePages, AreInRange, Reaches};

/// What is reached is the least set that has the objects which are always there and is closed under the edges.
pub fn reached_is_least()
    ensures least { (s : State) → IsLeast s }
    ensures exact { (s : State) (i : ℕ) → (is_reached s i ≡ true) ↔ Reaches s i }
{}

/// Sweeping twice is sweeping once.
pub fn sweep_is_idempotent()
    ensures { (s : State) → swept (swept s) ≡ swept s }
{}

/// The objects that the sweep makes others, or takes away, are told exactly.
pub fn sweep_is_told()
    ensures { (s : State) (i : ℕ) → IsToldBySweep s i }
{}

/// What the device accepted is a first part of what the saved copy has put, and that of what the running state has
/// put: so it is in the first world, and each label keeps it so.
pub fn output_is_in_order()
    ensures first { (image : Image) (cores : ℕ) → IsInOrder (first_world image cores) }
    ensures kept { (w : World) (label : Label) → IsInOrder w → IsInOrder (after w label) }
    ensures always { (image : Image) (cores : ℕ) → Always IsInOrder (first_world image cores) }
{}

/// What the device accepted never shrinks.
pub fn released_grows()
    ensures { (w : World) (labels : List Label) (channel : ℕ)
        → IsFirstPart (w.released channel) ((play w labels).released channel) }
{}

/// A cut after a commit changes nothing but the inputs that wait.
pub fn cut_after_commit()
    ensures { (w : World) → cut (commit w) ≡ record (commit w) { now = record (commit w).now { inputs = [] } } }
{}

/// A new object takes the least number that neither state has, and there is none exactly where each of the 128 is one
/// of an object in one of the states. The free pages are those of no object of either, all of them, rising.
pub fn new_numbers_are_free()
    ensures object { (w : World) → 0 < length (free_objects w) → IsLeastFree w (new_id w) }
    ensures no_object { (w : World) → (free_objects w ≡ []) ↔ ((id : ℕ) → id < OBJECTS → is_used_object w id ≡ true) }
    ensures pages { (w : World) → AreFreePages w }
{}

/// In every state that a machine comes to, each thread stands in at most one place, and there once: the run queue, a
/// core, a notification's list, a connection's list of clients, or a connection's place of the client that it serves.
pub fn threads_stand_in_one_place()
    ensures one { (s : State) (id : ℕ) (p q : ThreadState) → IsPlaced s → StandsIn s id p → StandsIn s id q → p ≡ q }
    ensures first { (image : Image) (cores : ℕ) → IsPlaced (initial image cores) }
    ensures kept { (w : World) (label : Label) → Both IsPlaced w → Both IsPlaced (after w label) }
    ensures ticks { (w : World) (core : ℕ) → IsPlaced w.now → IsPlaced (tick w core).now }
    ensures always { (image : Image) (cores : ℕ) → Always (Both IsPlaced) (first_world image cores) }
{}

/// In every state that a machine comes to by labels that may befall it, each thread stands where its state says, who
/// waits for clients has a connection on which nobody waits, and who runs on a core has something left of its slice.
pub fn threads_stand_where_they_say()
    ensures first { (image : Image) (cores : ℕ) → IsPresent (initial image cores) }
    ensures kept { (w : World) (label : Label) → MayStep w label → Both IsPlaced w → Both IsPresent w
        → Both IsPresent (after w label) }
    ensures always { (image : Image) (cores : ℕ) → MayAlways (Both IsPresent) (first_world image cores) }
{}

/// In every state that a machine comes to, the numbers of objects are in range, so that no place has more threads
/// than there are objects.
pub fn numbers_stay_in_range()
    ensures first { (image : Image) (cores : ℕ) → IsAccepted image → AreInRange (initial image cores) }
    ensures kept { (w : World) (label : Label) → IsPlaced w.now → Both AreInRange w → Both AreInRange (after w label) }
    ensures ticks { (w : World) (core : ℕ) → IsPlaced w.now → AreInRange w.now → AreInRange (tick w core).now }
    ensures always { (image : Image) (cores : ℕ) → IsAccepted image
        → Always (Both AreInRange) (first_world image cores) }
    ensures room { (s : State) (place : ThreadState) → IsPlaced s → AreInRange s
        → length (threads_in s place) ≤ OBJECTS }
{}

/// In every state that a machine comes to, groups, spaces, memory objects and notifications have their forms. A
/// notification on which threads wait has the count 0.
pub fn objects_keep_their_forms()
    ensures first { (image : Image) (cores : ℕ) → IsAccepted image → HaveForms (initial image cores) }
    ensures kept { (w : World) (label : Label) → Both HaveForms w → Both HaveForms (after w label) }
    ensures ticks { (w : World) (core : ℕ) → HaveForms w.now → HaveForms (tick w core).now }
    ensures always { (image : Image) (cores : ℕ) → IsAccepted image
        → Always (Both HaveForms) (first_world image cores) }
{}

/// In every state that a machine comes to, what objects name is there: capabilities, the group and the space of a
/// thread, the pages of a region, and the server of a connection.
pub fn what_is_named_is_there()
    ensures first { (image : Image) (cores : ℕ) → NameWhatIs (initial image cores) }
    ensures kept { (w : World) (label : Label) → IsPlaced w.now → AreInRange w.now → Both NameWhatIs w
        → Both NameWhatIs (after w label) }
    ensures always { (image : Image) (cores : ℕ) → IsAccepted image
        → Always (Both NameWhatIs) (first_world image cores) }
{}

/// In every state that a machine comes to, each page is of one object alone, and once there.
pub fn pages_are_apart()
    ensures first { (image : Image) (cores : ℕ) → IsAccepted image → AreApart (initial image cores) }
    ensures kept { (w : World) (label : Label) → AreInRange w.now → Both AreApart w → Both AreApart (after w label) }
    ensures ticks { (w : World) (core : ℕ) → AreInRange w.now → AreApart w.now → AreApart (tick w core).now }
    ensures always { (image : Image) (cores : ℕ) → IsAccepted image
        → Always (Both AreApart) (first_world image cores) }
{}

/// A checkpoint costs at most eight operations for each page, each object and each number of either, and 64.
pub fn cost_is_bounded()
    ensures { (w : World) → cost w ≤ 8 * (PAGES + OBJECTS + OBJECTS + PAGES) + 64 }
{}
