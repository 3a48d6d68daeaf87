//! Where bytes go to.

ghost use Rattle.std.specs.Prelude.{◌≡◌, ◌≤◌, ℕ, List, is_some, OnOk, IsErrOf};
ghost use Rattle.std.specs.declared.option.Option.{Option};
ghost use Rattle.std.specs.Io.KnownBytes.{append_known};
ghost use Rattle.sls_io.specs.Faults.{Rose};
ghost use Rattle.sls_io.specs.Sink.{AppendsPrefix, wants_after};

use thiserror::Error;

/// Why a sink didn't take all bytes: a write failed outside, or there was no memory for them.
#[derive(Clone, Copy, Debug, PartialEq, Eq, Error)]
pub enum SinkError {
    #[error("a write failed")]
    Failed,
    #[error("no memory for the bytes written")]
    Memory,
}

/// A sink of bytes, which counts its faults, and how often it had no memory for bytes.
///
/// It may tell the bytes that were written to it. Where it does, it goes on to tell them, and where it doesn't, it
/// never does.
pub trait Sink {
    // The bytes written, where they are told.
    ghost written: { Self → Option (List ℕ) };

    // The faults so far.
    ghost faults: { Self → ℕ };

    // How often it had no memory so far.
    ghost wants: { Self → ℕ };

    /// Writes all of `bytes` at `Ok`, some first ones of them where it failed, and none where there is no memory.
    fn write(&mut self, bytes: &[u8]) -> Result<(), SinkError>
        ensures appends { OnOk result (written self.new ≡ append_known (written self.old) bytes.now) }
        ensures prefix { IsErrOf result SinkError.Failed →
            AppendsPrefix (written self.old) (written self.new) bytes.now }
        ensures memory { IsErrOf result SinkError.Memory →
            (written self.new ≡ written self.old) × (faults self.new ≡ faults self.old) }
        ensures told { is_some (written self.new) ≡ is_some (written self.old) }

        // Want of memory is counted exactly where it is answered.
        ensures wants { wants self.new ≡ wants_after result (wants self.old) }

        // The count of faults never falls, and a failure shows in it.
        ensures never_falls { faults self.old ≤ faults self.new }
        ensures failed { IsErrOf result SinkError.Failed → Rose (faults self.old) (faults self.new) };
}
