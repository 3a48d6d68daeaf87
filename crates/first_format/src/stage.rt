//! What comes next in formatting.

/// The operation that comes next.
#[derive(Clone, Copy)]
pub enum Stage {
    /// The store of this piece, if it has words.
    Store(u16),
    /// The flush of this piece, which is stored.
    Flush(u16),
    /// The fence, with which all pieces are durable.
    Fence,
    /// The format word's own store, flush and fence.
    FormatWord,
    /// None: the memory is formatted.
    Done,
}
