//! Copies of lists.

ghost use Rattle.std.specs.Prelude.{◌≡◌};

use arrayvec::ArrayVec;

/// The same list once more.
pub fn copy_of<T: Copy + Default + Drop, const CAP: usize>(
    list: &ArrayVec<T, CAP>,
) -> ArrayVec<T, CAP>
    ensures { result ≡ list.now }
{
    let mut copy = ArrayVec::new();
    let _fits = copy.try_extend_from_slice(list.as_slice());
    copy
}
