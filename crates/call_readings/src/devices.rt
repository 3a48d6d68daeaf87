//! What devices tell of the channels.

use sls_base::OUTPUT_CHANNELS;

/// Of each output channel how many entries its device has accepted, and the length of the input that waits first, if
/// one waits.
#[derive(Clone, Copy)]
pub struct Devices {
    pub accepted: [u64; OUTPUT_CHANNELS],
    pub first_input: Option<u8>,
}
