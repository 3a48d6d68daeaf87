//! The bytes of a boot image: they are read, with the first fault where they are none, and written; and images that are
//! made of code words or by a number.
#![tactic(auto)]

mod fault;
mod field;
mod format;
mod laws;
mod made;
mod program;
mod reading;
mod region;
mod writing;

pub use fault::{ImageCause, ImageError};
pub use format::IMAGE_BYTES;
pub use laws::grammar;
pub use made::{generated, of_code};
pub use reading::read_image;
pub use writing::write_image;

#[cfg(test)]
mod tests;
