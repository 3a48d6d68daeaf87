//! Why bytes are no image.

ghost use Rattle.std.specs.Prelude.{◌≡◌, ◌<◌, ◌^◌};
ghost use Rattle.boot_image.specs.declared.fault.ImageError.TheVariants.{Memory, Bad};

use std::alloc::{AllocError, AllocFailed};
use thiserror::Error;

/// What is wrong at a place of the bytes.
#[derive(Clone, Copy, Debug, PartialEq, Eq)]
pub enum ImageCause {
    /// The bytes don't begin with `SLSI`.
    Magic,
    /// The format is another.
    Version,
    /// A field or content isn't whole, padding isn't zero, or bytes are left over.
    Length,
    /// There are too few or too many programs, threads, regions, objects or pages.
    Count,
    /// A region isn't whole pages of the addresses, its rights are none, its content is longer than its pages, or it
    /// meets an earlier region.
    Region,
    /// A channel is named that there isn't.
    Channel,
    /// The program may not begin at its entry.
    Entry,
}

/// Why `read_image` gave no image.
#[derive(Clone, Copy, Debug, Error)]
pub enum ImageError {
    /// There is no memory for the image.
    #[error("memory")]
    Memory,
    /// The bytes are no image: the cause and the place of the field at fault.
    #[error("bad image {cause:?} {place}")]
    Bad { cause: ImageCause, place: u32 },
}

impl From<AllocError> for ImageError {
    ghost from_gives = { λ _ e. e ≡ Memory };

    fn from(_e: AllocError) -> ImageError {
        ImageError::Memory
    }
}

impl<T: Drop> From<AllocFailed<T>> for ImageError {
    ghost from_gives = { λ _ e. e ≡ Memory };

    fn from(_e: AllocFailed<T>) -> ImageError {
        ImageError::Memory
    }
}

/// The fault at a place.
pub fn bad(cause: ImageCause, place: usize) -> ImageError
    requires { place < 2 ^ 32 }
    ensures { result ≡ Bad cause place }
{
    ImageError::Bad {
        cause,
        place: place as u32,
    }
}
