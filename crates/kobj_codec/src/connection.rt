//! The record of a connection.

ghost use Rattle.std.specs.Prelude.{◌≡◌, ◌+◌, ◌*◌, ◌^◌, ◌<◌, ◌↔◌, IsTrue, IfSome, ℕ, Option, slice_index};
ghost use Rattle.kobj_codec.specs.declared.obj.ConnectionRec.{ConnectionRec};
ghost use Rattle.kobj_codec.specs.declared.obj.Obj.TheVariants as objs;
ghost use Rattle.kobj_codec.specs.Objects.{IsConnection};
ghost use Rattle.kobj_codec.specs.Records as records;
ghost use Rattle.kobj_codec.specs.Records.{IsRecord};

use crate::kinds::CONNECTION_KIND;
use crate::list::{is_list, list_word, read_list};
use crate::obj::ConnectionRec;
use pmem_layout::SLOT_WORDS;
use sls_base::{OBJECTS, ObjId};

/// Whether a connection has a record.
pub fn is_connection(connection: &ConnectionRec) -> bool
    ensures { IsTrue result ↔ IsConnection connection.now }
{
    let client_is_one = match connection.client {
        Some(client) => usize::from(client) < OBJECTS,
        None => true,
    };
    usize::from(connection.server) < OBJECTS
        && client_is_one
        && is_list(connection.clients.as_slice())
}

/// Word 0 of a connection's record.
pub fn connection_head(connection: &ConnectionRec) -> u64
    ensures { result ≡ records.head_word (objs.Connection connection.now) }
{
    let (client, mark) = match connection.client {
        Some(client) => (client, 1),
        None => (0, 0),
    };
    u64::from_le_bytes([CONNECTION_KIND, connection.server, client, mark, 0, 0, 0, 0])
}

/// Word i + 1 of a connection's record.
pub fn connection_word(connection: &ConnectionRec, i: usize) -> u64
    requires { i + 1 < SLOT_WORDS }
    ensures { result ≡ records.word_behind (objs.Connection connection.now) i }
{
    list_word(connection.clients.as_slice(), i)
}

/// The client that a number and its mark tell of.
fn client_of(number: u8, mark: u8) -> Option<ObjId>
    ensures { (client : Option ℕ) → IfSome client (λ id. id < OBJECTS)
        → number + 2 ^ 8 * mark ≡ records.client_number client → result ≡ client }
{
    if mark == 0 { None } else { Some(number) }
}

/// The connection of a record.
pub fn read_connection(words: &[u64; SLOT_WORDS]) -> ConnectionRec
    ensures { (connection : ConnectionRec) → IsConnection connection
        → IsRecord (slice_index words.now) (objs.Connection connection) → result ≡ connection }
{
    let [_, server, client, mark, _, _, _, _] = words[0].to_le_bytes();
    ConnectionRec {
        server,
        client: client_of(client, mark),
        clients: read_list(words, 1),
    }
}
