//! Copies of the parts of a state.

ghost use Rattle.std.specs.Prelude.{◌≡◌, IfOk, drop, map};
ghost use Rattle.plain_state.specs.Slow.{slot_of, entries_of, inputs_of};

use crate::effect::Output;
use crate::object::Object;
use crate::state::Waiting;
use arrayvec::ArrayVec;
use std::alloc::{AllocError, Global};

/// A copy of some bytes.
pub fn copy_of_bytes(bytes: &ArrayVec<u8, 56>) -> ArrayVec<u8, 56>
    ensures { result ≡ bytes.now }
{
    let mut copy = ArrayVec::new();
    for byte in bytes.as_slice() {
        copy.push(*byte);
    }
    copy
}

/// Copies of entries.
pub fn copies_of_outputs(alloc: Global, outputs: &[Output]) -> Result<Vec<Output>, AllocError>
    ensures { IfOk result (λ copies. copies.items ≡ outputs.now) }
{
    let mut copies = Vec::new(alloc);
    for output in outputs {
        copies.push(Output {
            channel: output.channel,
            bytes: copy_of_bytes(&output.bytes),
        })?;
    }
    Ok(copies)
}

/// Copies of the inputs from a place on.
pub fn copies_of_inputs(
    alloc: Global,
    inputs: &[Waiting],
    from: usize,
) -> Result<Vec<Waiting>, AllocError>
    ensures { IfOk result (λ copies. copies.items ≡ drop from inputs.now) }
{
    let mut copies = Vec::new(alloc);
    if let Some(rest) = inputs.get(from..) {
        for input in rest {
            copies.push(Waiting {
                bytes: copy_of_bytes(&input.bytes),
            })?;
        }
    }
    Ok(copies)
}

/// Copies of objects.
pub fn copies_of_objects(
    alloc: Global,
    objects: &[Option<Object>],
) -> Result<Vec<Option<Object>>, AllocError>
    ensures { IfOk result (λ copies. map slot_of copies.items ≡ map slot_of objects.now) }
{
    let mut copies = Vec::new(alloc);
    for object in objects {
        copies.push(match object {
            Some(object) => Some(object.copy(alloc)?),
            None => None,
        })?;
    }
    Ok(copies)
}
