//! The running kernel's objects, and the numbers in use.

ghost use Rattle.std.specs.Prelude.{◌≡◌, None};

use call_readings::NumbersInUse;
use kobj_table::Objects;
use sls_base::ObjId;

/// The objects of the running kernel, the numbers in use by the running or the saved state, and the object that the
/// last tick made.
#[derive(Drop)]
pub struct Runtime {
    pub(crate) objects: Objects,
    pub(crate) numbers: NumbersInUse,
    pub(crate) made: Option<ObjId>,
}

impl Runtime {
    /// These objects, with these numbers in use.
    pub(crate) fn new(objects: Objects, numbers: NumbersInUse) -> Self
        ensures objects { result.objects ≡ objects }
        ensures numbers { result.numbers ≡ numbers }
        ensures made { result.made ≡ None }
    {
        Runtime {
            objects,
            numbers,
            made: None,
        }
    }
}
