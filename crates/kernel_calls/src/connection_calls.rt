//! Calls over connections.

ghost use Rattle.plain_state.specs.declared.calls.Call.{Call};
ghost use Rattle.kernel_calls.specs.Kernel.{Allowed};
ghost use Rattle.kernel_calls.specs.Does.{DoesCall, Keeps};

use crate::done::Done;
use crate::lent::give_back;
use crate::runtime::Runtime;
use call_readings::id_named;
use kobj_table::Slot;
use sls_base::{ObjId, Thread};

impl Runtime {
    /// Calls over a connection: its server is woken where it waits for clients, and else the caller waits for it.
    pub(crate) fn call(&mut self, me: ObjId, thread: &Thread) -> Done
        requires { Allowed self.old me thread.now Call.ConnCall }
        ensures does { DoesCall self.old self.new me thread.now Call.ConnCall result }
        ensures keeps { Keeps self.old self.new me result }
    {
        plain_laws::calls::unrefused_call_meets_all();
        kobj_table::lists_alone();
        let id = id_named(&self.objects, thread, 0);
        let Some(mut connection) = self.objects.connection(id) else {
            return Done::answers(thread, 0);
        };
        let server_id = connection.server;
        let Some(mut server) = self.objects.thread(server_id) else {
            return Done::answers(thread, 0);
        };
        let mut caller = *thread;
        ipc_note::call(
            &mut connection,
            id,
            &mut self.objects.links,
            me,
            &mut caller,
            &mut server,
        );
        self.objects.put(id, Slot::Connection(connection));
        self.objects.set_thread(server_id, server);
        Done::of_caller(&caller)
    }

    /// Serves a connection: the client that was served is woken, and then the first that waits is served, or the
    /// server waits for clients.
    pub(crate) fn serve(&mut self, me: ObjId, thread: &Thread) -> Done
        requires { Allowed self.old me thread.now Call.Serve }
        ensures does { DoesCall self.old self.new me thread.now Call.Serve result }
        ensures keeps { Keeps self.old self.new me result }
    {
        plain_laws::calls::unrefused_call_meets_all();
        kobj_table::lists_alone();
        let id = id_named(&self.objects, thread, 0);
        let Some(mut connection) = self.objects.connection(id) else {
            return Done::answers(thread, 0);
        };
        let served = connection.client;
        let first = self.objects.first(id);
        let mut caller = *thread;
        let mut client = self.objects.thread_or_zeros(served.unwrap_or(me));
        let mut next = self.objects.thread_or_zeros(first.unwrap_or(me));
        ipc_note::serve(
            &mut connection,
            id,
            &mut self.objects.links,
            me,
            &mut caller,
            &mut client,
            &mut next,
        );
        give_back(&mut self.objects, served, client);
        self.objects.put(id, Slot::Connection(connection));
        give_back(&mut self.objects, first, next);
        Done::of_caller(&caller)
    }
}
