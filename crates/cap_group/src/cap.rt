//! Capabilities.

ghost use Rattle.std.specs.Prelude.{◌≡◌, ◌↔◌, IsTrue};
ghost use Rattle.sls_base.specs.Rights as sets;
ghost use Rattle.sls_base.specs.Rights.{HasRights};

use sls_base::{ObjId, has_rights};

/// A capability: an object, and what its holder may do with it. The rights are a set, each member a bit.
#[derive(Clone, Copy, PartialEq, Eq, Debug)]
pub struct Cap {
    pub object: ObjId,
    pub rights: u8,
}

impl Cap {
    /// Whether it has every one of these rights.
    pub fn has(&self, rights: u8) -> bool
        ensures by_bits { IsTrue result ↔ HasRights self.now.rights rights }
        ensures by_test { result ≡ sets.has_rights self.now.rights rights }
    {
        has_rights(self.rights, rights)
    }
}
