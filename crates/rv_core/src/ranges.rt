//! What every plan keeps.

ghost use Rattle.std.specs.Prelude.{◌≡◌, ◌%◌};
ghost use Rattle.sls_base.specs.declared.limits.TheConstants.{INSTRUCTION_BYTES};
ghost use Rattle.rv_table.specs.declared.Instr.{Instr};
ghost use Rattle.rv_table.specs.Table.{IsInstr};
ghost use Rattle.rv_core.specs.declared.registers.Regs.{Regs};
ghost use Rattle.rv_core.specs.Effect.{effect};
ghost use Rattle.rv_core.specs.Ranges.{AreRegs, IsPlan, GoesAligned};

/// The effect of an instruction is in range wherever the registers are. It does nothing: this is the law.
pub fn plans_in_range()
    ensures in_range { (i : Instr) (regs : Regs) → IsInstr i → AreRegs regs → IsPlan (effect i regs) }
    ensures aligned { (i : Instr) (regs : Regs) → regs.pc % INSTRUCTION_BYTES ≡ 0 → GoesAligned (effect i regs) }
{}
