//! A world: the running state, its one saved copy, and what befalls them.

ghost use Rattle.std.specs.Prelude.{◌≡◌, ℕ, ◌+◌, ◌<◌, ◌==◌, ◌||◌, IfOk, OnOk, OnErr, length, option_map, slice_get};
ghost use Rattle.std.specs.List.{list_any};
ghost use Rattle.sls_base.specs.declared.limits.TheConstants.{LAST_VERSION};
ghost use Rattle.sls_base.specs.declared.fixed.TheConstants.{SCHEDULER};
ghost use Rattle.plain_state.specs.Worlds as worlds;
ghost use Rattle.plain_state.specs.Worlds.{accepted_count};
ghost use Rattle.plain_state.specs.States.{view_of};
ghost use Rattle.plain_model.specs.Play as play;
ghost use Rattle.plain_model.specs.Play.{after};
ghost use Rattle.plain_state.specs.Ticks.{tick, tick_reply, world_of_effect, stores_to, puts_to_page, puts_to_ring, writes};
ghost use Rattle.plain_state.specs.Memory.{page_at};
ghost use Rattle.plain_model.specs.MayStep.{MayStep};
ghost use Rattle.plain_state.specs.Slow.{entries_of, state_of, effect_of, StoresInPages};
ghost use Rattle.plain_state.specs.SlowChosen.{chosen_of};
ghost use Rattle.plain_model.specs.SlowWorld.{world_of, is_in};

use arrayvec::ArrayVec;
use plain_state::{
    ANSWER, ByteStore, Change, Chosen, Effect, Label, OBJECT_END, Object, Output, PAGE_END, Reply,
    State, Waiting, choose, copy_of_bytes,
};
use sls_base::{
    CoreNo, Entry, FIRST_OUTPUT_RING, ObjId, PageNo, RING_ENTRIES, SCHEDULER, ThreadView, Version,
    WAITING_INPUTS,
};
use std::alloc::{AllocError, Global};

/// A world: the running state, the saved copy, what the device accepted, the version, and the pages stored to and the objects
/// changed since the last commit or cut.
#[derive(Drop)]
pub struct World {
    pub(crate) running: State,
    pub(crate) saved: State,
    pub(crate) released: Vec<Output>,
    pub(crate) version: Version,
    pub(crate) stored: Vec<PageNo>,
    pub(crate) changed: Vec<u16>,
}

/// Whether a list has a number.
pub(crate) fn has_number(numbers: &[u16], number: u16) -> bool
    ensures { result ≡ is_in numbers.now number }
{
    numbers.iter().any(|other| *other == number)
}

/// The list with a number, once.
fn with_number(numbers: &mut Vec<u16>, number: u16) -> Result<(), AllocError>
    ensures { OnOk result ((n : ℕ) → is_in numbers.new.items n ≡ (is_in numbers.old.items n || (number == n))) }
{
    if !has_number(numbers.as_slice(), number) {
        numbers.push(number)?;
    }
    Ok(())
}

/// The list with the numbers of the objects that are changed.
fn with_changed(numbers: &mut Vec<u16>, changes: &[Change]) -> Result<(), AllocError>
    ensures { OnOk result ((n : ℕ) → is_in numbers.new.items n
        ≡ (is_in numbers.old.items n || list_any (λ change. change.id == n) changes.now)) }
{
    for change in changes {
        with_number(numbers, u16::from(change.id))?;
    }
    Ok(())
}

/// The list with the numbers of the objects that have a page that is stored to.
fn with_written(numbers: &mut Vec<u16>, stores: &[ByteStore]) -> Result<(), AllocError>
    ensures { OnOk result ((n : ℕ) → is_in numbers.new.items n
        ≡ (is_in numbers.old.items n || list_any (λ store. store.place.memory == n) stores.now)) }
{
    for store in stores {
        with_number(numbers, u16::from(store.place.memory))?;
    }
    Ok(())
}

/// The list with the page of an entry's channel, if there is an entry.
fn with_page_put(numbers: &mut Vec<u16>, output: &Option<Output>) -> Result<(), AllocError>
    ensures { OnOk result ((n : ℕ) → is_in numbers.new.items n
        ≡ (is_in numbers.old.items n || puts_to_page output.now n)) }
{
    if let Some(output) = output {
        with_number(numbers, PageNo::from(output.channel))?;
    }
    Ok(())
}

/// The list with the ring of an entry's channel, if there is an entry.
fn with_ring_put(numbers: &mut Vec<u16>, output: &Option<Output>) -> Result<(), AllocError>
    ensures { OnOk result ((n : ℕ) → is_in numbers.new.items n
        ≡ (is_in numbers.old.items n || puts_to_ring output.now n)) }
{
    if let Some(output) = output {
        with_number(
            numbers,
            u16::from(FIRST_OUTPUT_RING) + u16::from(output.channel),
        )?;
    }
    Ok(())
}

/// The list with the numbers of the pages that stores are to.
#[tactic(auto, unfolding(plain_state::specs::Slow::state_of))]
fn with_stored(
    numbers: &mut Vec<u16>,
    state: &State,
    stores: &[ByteStore],
) -> Result<(), AllocError>
    ensures { OnOk result ((n : ℕ) → is_in numbers.new.items n
        ≡ (is_in numbers.old.items n
        || list_any (λ store. (page_at (state_of state.now).objects store.place).number == n) stores.now)) }
{
    for store in stores {
        with_number(numbers, state.page_number_at(store.place))?;
    }
    Ok(())
}

/// A copy of the bytes of an entry of a channel, by its number among that channel's.
fn entry_at(outputs: &[Output], channel: u8, number: u64) -> Option<ArrayVec<u8, 56>>
    ensures { option_map (λ bytes. bytes.items) result ≡ slice_get (entries_of outputs.now channel) number }
{
    let output = outputs
        .iter()
        .filter(|output| output.channel == channel)
        .nth(number as usize)?;
    Some(copy_of_bytes(&output.bytes))
}

#[tactic(auto, unfolding(crate::specs::SlowWorld::world_of, plain_state::specs::Slow::state_of, plain_state::specs::Slow::effect_of))]
impl World {
    /// The running state.
    pub fn running(&self) -> &State
        ensures { state_of result.now ≡ (world_of self.now).now }
    {
        &self.running
    }

    /// The saved copy.
    pub fn saved(&self) -> &State
        ensures { state_of result.now ≡ (world_of self.now).saved }
    {
        &self.saved
    }

    /// How many entries of a channel the device has accepted.
    pub fn accepted(&self, channel: u8) -> u64
        ensures { result ≡ accepted_count (world_of self.now) channel }
    {
        self.released
            .iter()
            .filter(|output| output.channel == channel)
            .count() as u64
    }

    /// How many entries the running state has put on a channel.
    pub fn put_count(&self, channel: u8) -> u64
        ensures { result ≡ worlds.put_count (world_of self.now) channel }
    {
        self.running.put_count(channel) as u64
    }

    /// The number of commits.
    pub fn version(&self) -> Version
        ensures { result ≡ (world_of self.now).version }
    {
        self.version
    }

    /// What is told of a thread of the running state, if there is one of that number.
    pub fn thread(&self, id: ObjId) -> Option<ThreadView>
        ensures { result ≡ view_of ((world_of self.now).now.objects id) }
    {
        match self.running.object(id) {
            Some(Object::Thread(thread)) => Some(ThreadView {
                state: thread.state,
                pc: thread.pc,
                x10: thread.x[ANSWER],
            }),
            _ => None,
        }
    }

    /// Whether an object of the running state has a page.
    pub fn has_page(&self, page: PageNo) -> bool
        ensures { result ≡ worlds.has_page (world_of self.now).now page }
    {
        self.running.has_page(page)
    }

    /// Whether the ring of a channel has no room for an entry.
    pub(crate) fn is_ring_full(&self, channel: u8) -> bool
        ensures { result ≡ worlds.is_ring_full (world_of self.now) channel }
    {
        let put = self.put_count(channel);
        let accepted = self.accepted(channel);
        put.checked_sub(accepted) == Some(RING_ENTRIES) || put == u64::MAX
    }

    /// Whether an object has a number, in the running state or the saved one.
    fn is_used_object(&self, id: ObjId) -> bool
        ensures { result ≡ worlds.is_used_object (world_of self.now) id }
    {
        self.running.object(id).is_some() || self.saved.object(id).is_some()
    }

    /// Whether an object has a page, in the running state or the saved one.
    fn is_used_page(&self, page: PageNo) -> bool
        ensures { result ≡ worlds.is_used_page (world_of self.now) page }
    {
        self.running.has_page(page) || self.saved.has_page(page)
    }

    /// The least object number that is free.
    pub(crate) fn free_object(&self) -> Option<ObjId>
        ensures { result ≡ slice_get (worlds.free_objects (world_of self.now)) 0 }
    {
        (0..OBJECT_END).find(|id| !self.is_used_object(*id))
    }

    /// The page numbers that are free, rising.
    pub(crate) fn free_pages(&self, alloc: Global) -> Result<Vec<PageNo>, AllocError>
        ensures { IfOk result (λ pages. pages.items ≡ worlds.free_pages (world_of self.now)) }
    {
        let mut pages = Vec::new(alloc);
        for page in 0..PAGE_END {
            if !self.is_used_page(page) {
                pages.push(page)?;
            }
        }
        Ok(pages)
    }

    /// What befalls a world, and what it answers. The only error is want of memory, and then nothing has changed.
    pub fn step(&mut self, alloc: Global, label: Label) -> Result<Reply, AllocError>
        requires { MayStep (world_of self.old) label }
        ensures reply { IfOk result (λ reply. reply ≡ play.reply (world_of self.old) label) }
        ensures world { OnOk result (world_of self.new ≡ after (world_of self.old) label) }
        ensures refused { OnErr result (world_of self.new ≡ world_of self.old) }
    {
        match label {
            Label::Tick(core) => self.tick(alloc, core),
            Label::Commit => self.commit(alloc),
            Label::Cut => self.cut(alloc),
            Label::Accept(channel) => self.accept(channel),
            Label::Input(bytes) => self.input(Waiting { bytes }),
        }
    }

    fn tick(&mut self, alloc: Global, core: CoreNo) -> Result<Reply, AllocError>
        requires { core < length (world_of self.old).now.cores }
        ensures reply { IfOk result (λ reply. reply ≡ tick_reply (world_of self.old) core) }
        ensures world { OnOk result (world_of self.new ≡ tick (world_of self.old) core) }
        ensures refused { OnErr result (self.new ≡ self.old) }
    {
        let Some(chosen) = choose(alloc, &self.running, core)? else {
            return Ok(Reply::Idle);
        };
        let thread = self.running.thread_at(chosen.occupant.thread);
        let effect = self.instruction(alloc, chosen.occupant.thread, &thread)?;
        let reply = if effect.wishes {
            Reply::Wished
        } else {
            Reply::Retired
        };
        self.apply(alloc, core, chosen, effect)?;
        Ok(reply)
    }

    fn apply(
        &mut self,
        alloc: Global,
        core: CoreNo,
        chosen: Chosen,
        effect: Effect,
    ) -> Result<(), AllocError>
        requires core { core < length (world_of self.old).now.cores }
        requires in_pages { StoresInPages effect }
        ensures world { OnOk result
            (world_of self.new ≡ world_of_effect (world_of self.old) core (chosen_of chosen) (effect_of effect)) }
        ensures refused { OnErr result (self.new ≡ self.old) }
    {
        let stored = self.stored_after(alloc, &effect)?;
        let changed = self.changed_after(alloc, chosen.occupant.thread, &effect)?;
        self.running = self.running.after(alloc, core, chosen, effect)?;
        self.stored = stored;
        self.changed = changed;
        Ok(())
    }

    fn stored_after(&self, alloc: Global, effect: &Effect) -> Result<Vec<PageNo>, AllocError>
        ensures { IfOk result (λ pages. (page : ℕ) → is_in pages.items page
            ≡ ((world_of self.now).stored page || stores_to (state_of self.now.running) (effect_of effect.now) page)) }
    {
        let mut stored = Vec::from_slice(alloc, self.stored.as_slice())?;
        with_stored(&mut stored, &self.running, effect.stores.as_slice())?;
        with_page_put(&mut stored, &effect.output)?;
        Ok(stored)
    }

    fn changed_after(
        &self,
        alloc: Global,
        thread: ObjId,
        effect: &Effect,
    ) -> Result<Vec<u16>, AllocError>
        ensures { IfOk result (λ ids. (i : ℕ) → is_in ids.items i
            ≡ ((world_of self.now).changed i
            || ((i == SCHEDULER) || ((i == thread) || writes (effect_of effect.now) i)))) }
    {
        let mut changed = Vec::from_slice(alloc, self.changed.as_slice())?;
        with_number(&mut changed, u16::from(SCHEDULER))?;
        with_number(&mut changed, u16::from(thread))?;
        with_changed(&mut changed, effect.changes.as_slice())?;
        with_written(&mut changed, effect.stores.as_slice())?;
        with_ring_put(&mut changed, &effect.output)?;
        Ok(changed)
    }

    fn commit(&mut self, alloc: Global) -> Result<Reply, AllocError>
        requires { (world_of self.old).version < LAST_VERSION }
        ensures reply { IfOk result (λ reply. reply ≡ Reply.Committed ((world_of self.old).version + 1)) }
        ensures world { OnOk result (world_of self.new ≡ play.commit (world_of self.old)) }
        ensures refused { OnErr result (self.new ≡ self.old) }
    {
        let now = self.running.swept(alloc)?;
        let saved = now.copy(alloc, 0)?;
        self.saved = saved;
        self.running = now;
        self.version += 1;
        self.stored = Vec::new(alloc);
        self.changed = Vec::new(alloc);
        Ok(Reply::Committed(self.version))
    }

    fn cut(&mut self, alloc: Global) -> Result<Reply, AllocError>
        ensures reply { IfOk result (λ reply. reply ≡ Reply.Went) }
        ensures world { OnOk result (world_of self.new ≡ play.cut (world_of self.old)) }
        ensures refused { OnErr result (self.new ≡ self.old) }
    {
        let mut now = self.saved.copy(alloc, 0)?;
        now.inputs = Vec::new(alloc);
        self.running = now;
        self.stored = Vec::new(alloc);
        self.changed = Vec::new(alloc);
        Ok(Reply::Went)
    }

    fn accept(&mut self, channel: u8) -> Result<Reply, AllocError>
        ensures reply { IfOk result (λ reply. reply ≡ play.reply (world_of self.old) (Label.Accept channel)) }
        ensures world { OnOk result (world_of self.new ≡ play.accept (world_of self.old) channel) }
        ensures refused { OnErr result (world_of self.new ≡ world_of self.old) }
    {
        let number = self.accepted(channel);
        let Some(bytes) = entry_at(self.saved.out.as_slice(), channel, number) else {
            return Ok(Reply::NoEntry);
        };
        self.released.push(Output {
            channel,
            bytes: copy_of_bytes(&bytes),
        })?;
        Ok(Reply::Took(Entry { number, bytes }))
    }

    /// Whether one more input can wait.
    fn has_input_room(&self) -> bool
        ensures { result ≡ play.has_input_room (world_of self.now) }
    {
        self.running.inputs.len() < WAITING_INPUTS
    }

    fn input(&mut self, input: Waiting) -> Result<Reply, AllocError>
        ensures reply { IfOk result (λ reply. reply ≡ play.reply (world_of self.old) (Label.Input input.bytes)) }
        ensures world { OnOk result (world_of self.new ≡ play.input (world_of self.old) input.bytes.items) }
        ensures refused { OnErr result (world_of self.new ≡ world_of self.old) }
    {
        if !self.has_input_room() {
            return Ok(Reply::Full);
        }
        self.running.inputs.push(input)?;
        Ok(Reply::Put)
    }
}
