//! Threads that are lent to a call.

ghost use Rattle.std.specs.Prelude.{◌≡◌, ◌<◌, IfSome, IfNone};
ghost use Rattle.kobj_table.specs.declared.slot.Slot.{Slot};
ghost use Rattle.kobj_table.specs.Objects.{Puts, HasNoStrays, HasNoStraysAt};

use kobj_table::Objects;
use sls_base::{OBJECTS, ObjId, Thread};

/// Puts a thread back that was lent, if one was.
pub(crate) fn give_back(objects: &mut Objects, id: Option<ObjId>, thread: Thread)
    requires { IfSome id (λ lent. lent < OBJECTS) }
    ensures some { IfSome id (λ lent. Puts objects.old objects.new lent (Slot.Thread thread)) }
    ensures none { IfNone id (objects.new ≡ objects.old) }
    ensures strays { IfSome id (λ lent. HasNoStrays objects.old → HasNoStraysAt objects.old (Slot.Thread thread) lent
        → HasNoStrays objects.new) }
{
    if let Some(id) = id {
        objects.set_thread(id, thread);
    }
}
