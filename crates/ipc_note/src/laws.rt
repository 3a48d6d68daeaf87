//! Laws. Each of these functions does nothing: its contract is the law.

ghost use Rattle.std.specs.Prelude.{◌≡◌, ◌-◌, ◌^◌};

use crate::connection::TAKEN;
use crate::lists::RUN_QUEUE;
use crate::notification::FULL;
use crate::thread::{ANSWER, FIRST_VALUE, SECOND_VALUE};

/// The numbers of the registers and of the list that calls speak of, and of their refusals.
pub fn call_numbers()
    ensures answer { ANSWER ≡ 10 }
    ensures first_value { FIRST_VALUE ≡ 11 }
    ensures second_value { SECOND_VALUE ≡ 12 }
    ensures run_queue { RUN_QUEUE ≡ 1 }
    ensures full { FULL ≡ 2 ^ 32 - 12 }
    ensures taken { TAKEN ≡ 2 ^ 32 - 14 }
{}
