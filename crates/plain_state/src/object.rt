//! Objects, of the slow form.

ghost use Rattle.std.specs.Prelude.{◌≡◌, ◌≤◌, ◌==◌, IfOk, length, map};
ghost use Rattle.std.specs.List.{list_any};
ghost use Rattle.sls_base.specs.declared.limits.TheConstants.{GROUP_SLOTS};
ghost use Rattle.plain_state.specs.Objects as plain;
ghost use Rattle.plain_state.specs.Slow.{page_of, object_of, slot_of};

use crate::objects::{Capability, Kind, Region};
use crate::page::Page;
use arrayvec::ArrayVec;
use sls_base::{GROUP_SLOTS, ObjId, PageNo, Thread};
use std::alloc::{AllocError, Global};

/// An object.
#[derive(Drop)]
pub enum Object {
    Group(ArrayVec<Option<Capability>, 32>),
    Thread(Thread),
    Space(Vec<Region>),
    Memory(Vec<Page>),
    Connection(ObjId, Option<ObjId>, Vec<ObjId>),
    Notification(u32, Vec<ObjId>),
    OutputRing(u8),
    InputRing,
    Scheduler,
}

/// Whether each right wanted is among those that are had.
pub fn includes(had: u32, wanted: u32) -> bool
    ensures { result ≡ plain.includes had wanted }
{
    had & wanted == wanted
}

/// Copies of pages.
fn copies_of_pages(alloc: Global, pages: &[Page]) -> Result<Vec<Page>, AllocError>
    ensures { IfOk result (λ copies. map page_of copies.items ≡ map page_of pages.now) }
{
    let mut copies = Vec::new(alloc);
    for page in pages {
        copies.push(page.copy(alloc)?)?;
    }
    Ok(copies)
}

/// A copy of the slots of a group.
pub fn copy_of_slots(slots: &[Option<Capability>]) -> ArrayVec<Option<Capability>, 32>
    requires { length slots.now ≤ GROUP_SLOTS }
    ensures { result.items ≡ slots.now }
{
    let mut copy = ArrayVec::new();
    for slot in slots {
        copy.push(*slot);
    }
    copy
}

impl Object {
    /// A group whose slots are empty.
    #[tactic(auto, unfolding(crate::specs::Objects::empty_slots))]
    pub fn empty_group() -> Object
        ensures { object_of result ≡ plain.new_group }
    {
        Object::Group(copy_of_slots(&[None; GROUP_SLOTS]))
    }

    /// A copy of the object.
    pub fn copy(&self, alloc: Global) -> Result<Object, AllocError>
        ensures { IfOk result (λ object. object_of object ≡ object_of self.now) }
    {
        Ok(match self {
            Object::Group(slots) => Object::Group(copy_of_slots(slots.as_slice())),
            Object::Thread(thread) => Object::Thread(*thread),
            Object::Space(regions) => Object::Space(Vec::from_slice(alloc, regions.as_slice())?),
            Object::Memory(pages) => Object::Memory(copies_of_pages(alloc, pages.as_slice())?),
            Object::Connection(server, client, clients) => Object::Connection(
                *server,
                *client,
                Vec::from_slice(alloc, clients.as_slice())?,
            ),
            Object::Notification(count, waiters) => {
                Object::Notification(*count, Vec::from_slice(alloc, waiters.as_slice())?)
            }
            Object::OutputRing(channel) => Object::OutputRing(*channel),
            Object::InputRing => Object::InputRing,
            Object::Scheduler => Object::Scheduler,
        })
    }
}

/// The slots of a group; none of another object.
pub fn slots_of(object: &Option<Object>) -> &[Option<Capability>]
    ensures slots { result.now ≡ plain.slots_of (slot_of object.now) }
    ensures count { length result.now ≤ GROUP_SLOTS }
{
    match object {
        Some(Object::Group(slots)) => slots.as_slice(),
        _ => &[],
    }
}

/// The regions of a space; none of another object.
pub fn regions_of(object: &Option<Object>) -> &[Region]
    ensures { result.now ≡ plain.regions_of (slot_of object.now) }
{
    match object {
        Some(Object::Space(regions)) => regions.as_slice(),
        _ => &[],
    }
}

/// The pages of a memory object; none of another object.
pub fn pages_of(object: &Option<Object>) -> &[Page]
    ensures { map page_of result.now ≡ plain.pages_of (slot_of object.now) }
{
    match object {
        Some(Object::Memory(pages)) => pages.as_slice(),
        _ => &[],
    }
}

/// Whether one of the pages has a number.
fn is_among(pages: &[Page], page: PageNo) -> bool
    ensures { result ≡ list_any (λ number. number == page) (map (λ of. of.number) (map page_of pages.now)) }
{
    pages.iter().any(|of| of.number == page)
}

/// Whether an object has a page; page c is that of output channel c.
pub fn has_page_number(object: &Option<Object>, page: PageNo) -> bool
    ensures { result ≡ list_any (λ number. number == page) (plain.page_numbers (slot_of object.now)) }
{
    match object {
        Some(Object::Memory(pages)) => is_among(pages.as_slice(), page),
        Some(Object::OutputRing(channel)) => u16::from(*channel) == page,
        _ => false,
    }
}

/// Whether an object is of the kind that a call names.
pub fn is_kind(kind: Kind, object: &Option<Object>) -> bool
    ensures { result ≡ plain.is_kind kind (slot_of object.now) }
{
    match kind {
        Kind::AnyKind => true,
        Kind::GroupKind => matches!(object, Some(Object::Group(_))),
        Kind::SpaceKind => matches!(object, Some(Object::Space(_))),
        Kind::MemoryKind => matches!(object, Some(Object::Memory(_))),
        Kind::ConnectionKind => matches!(object, Some(Object::Connection(..))),
        Kind::NotificationKind => matches!(object, Some(Object::Notification(..))),
        Kind::OutputKind => matches!(object, Some(Object::OutputRing(_))),
        Kind::InputKind => matches!(object, Some(Object::InputRing)),
    }
}
