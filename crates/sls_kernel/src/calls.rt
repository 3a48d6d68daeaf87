//! The calls of a program.

/// Why a call is refused. A refused call changes x10 and pc alone.
#[derive(Clone, Copy)]
pub enum Refusal {
    /// No call has this number.
    BadCall,
    /// The slot is empty, or there is none of this number.
    NoCap,
    /// The slot's object is not of the kind that the call needs.
    WrongKind,
    /// One of the bytes isn't readable.
    BadAddress,
    /// The length is 0 or above 56.
    BadSize,
    /// The channel has no room for one more entry.
    Full,
}
