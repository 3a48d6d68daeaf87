//! The law that joins the two plain machines. The function does nothing: its contract is the law.

ghost use Rattle.std.specs.Prelude.{◌≡◌, ℕ, if◌then◌else◌};
ghost use Rattle.sls_base.specs.declared.image.Image.{Image};
ghost use Rattle.plain_state.specs.declared.label.Label.TheVariants.{Accept};
ghost use Rattle.plain_state.specs.declared.label.Reply.TheVariants.{Idle, Retired};
ghost use Rattle.plain_model.specs.Worlds.{World};
ghost use Rattle.plain_model.specs.Initial.{first_world};
ghost use Rattle.plain_model.specs.Ticks.{tick, tick_reply};
ghost use Rattle.plain_model.specs.Play.{accept, commit, cut, reply};
ghost use Rattle.sls_kernel.specs.Program.{IsOfCode, program_bytes};
ghost use Rattle.sls_kernel.specs.Plain as program;
ghost use Rattle.plain_join.specs.Joined.{the_core, IsJoined, MakesKnownCall, core_count, accept_reply};

/// On an image of one program of code words the plain machine of that program and that of the whole kernel are one:
/// their first worlds are joined, a tick, a commit, a cut and an entry that the device accepts keep them so, and both
/// tell the same.
pub fn plain_machines_agree()
    ensures first { (image : Image) (commits cuts : ℕ) → IsOfCode image
        → IsJoined image (program.first (program_bytes image) commits cuts) (first_world image core_count) }
    ensures tick { (image : Image) (v : program.World) (w : World) → IsOfCode image → MakesKnownCall v.now
        → IsJoined image v w → IsJoined image (program.tick v) (tick w the_core) }
    ensures reply { (image : Image) (v : program.World) (w : World) → IsOfCode image → MakesKnownCall v.now
        → IsJoined image v w
        → tick_reply w the_core ≡ (if program.is_stopped v.now.thread.status then Idle else Retired) }
    ensures commit { (image : Image) (v : program.World) (w : World) → IsOfCode image
        → IsJoined image v w → IsJoined image (program.commit v) (commit w) }
    ensures cut { (image : Image) (v : program.World) (w : World)
        → IsJoined image v w → IsJoined image (program.cut v) (cut w) }
    ensures accept { (image : Image) (v : program.World) (w : World) (channel : ℕ)
        → IsJoined image v w → IsJoined image (program.accept v channel) (accept w channel) }
    ensures offered { (image : Image) (v : program.World) (w : World) (channel : ℕ)
        → IsJoined image v w → reply w (Accept channel) ≡ accept_reply (program.offered v channel) }
{}
