//! Whether an object has a record.

ghost use Rattle.std.specs.Prelude.{◌↔◌, IsTrue};
ghost use Rattle.kobj_codec.specs.Objects.{IsObj};

use crate::connection::is_connection;
use crate::group::is_group;
use crate::memory::is_memory;
use crate::notification::is_notification;
use crate::obj::Obj;
use crate::ring::is_ring;
use crate::scheduler::is_scheduler;
use crate::space::is_space;
use crate::thread::is_thread;

impl Obj {
    /// Whether its numbers are in the ranges of a record.
    pub fn is_in_range(&self) -> bool
        ensures { IsTrue result ↔ IsObj self.now }
    {
        match self {
            Obj::Group(group) => is_group(group),
            Obj::Thread(thread) => is_thread(thread),
            Obj::Space(space) => is_space(space),
            Obj::Memory(memory) => is_memory(memory),
            Obj::Connection(connection) => is_connection(connection),
            Obj::Notification(notification) => is_notification(notification),
            Obj::Ring(ring) => is_ring(ring),
            Obj::Scheduler(scheduler) => is_scheduler(scheduler),
        }
    }
}
