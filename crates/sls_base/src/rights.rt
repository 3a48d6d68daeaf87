//! The rights of capabilities and regions: a set of them is the sum of its members.

ghost use Rattle.std.specs.Prelude.{◌≡◌, ◌↔◌, IsTrue};
ghost use Rattle.sls_base.specs.Rights as sets;
ghost use Rattle.sls_base.specs.Rights.{HasRights};

/// To read: a load, or the call that a capability is named in takes something out.
pub const READ: u8 = 1;
/// To write: a store, or the call that a capability is named in puts something in.
pub const WRITE: u8 = 2;
/// To fetch instructions.
pub const EXECUTE: u8 = 4;
/// To copy a capability.
pub const GRANT: u8 = 8;
/// All rights that a region may have.
pub const REGION_RIGHTS: u8 = 7;
/// All rights.
pub const ALL_RIGHTS: u8 = 15;

/// Whether all rights that are wanted are held.
pub fn has_rights(held: u8, wanted: u8) -> bool
    ensures by_bits { IsTrue result ↔ HasRights held wanted }
    ensures told { result ≡ sets.has_rights held wanted }
{
    held & wanted == wanted
}
