//! From a text to the words of its program.

ghost use Rattle.std.specs.Prelude.{◌≡◌, ◌<◌, ◌+◌, ◌++◌, Err, IfOk, IfErr, OnOk, length, vec_len};
ghost use Rattle.std.specs.Option.{option_to_list};
ghost use Rattle.rv_asm.specs.Program.{fault_in, IsAssembled};
ghost use Rattle.rv_asm.specs.Told.{IsTold};

use crate::error::{AsmCause, AsmError};
use crate::lines::program_of;
use crate::program::word_of;
use sls_base::TEXT_BYTES;
use std::alloc::{AllocError, Global};

/// The words of a program.
///
/// # Errors
///
/// `Bad` names the first line at fault, counted from 1, and the first of its causes; line 0 with `Long` is a text of
/// more than 65,536 bytes. `Memory` where memory runs out.
#[tactic(auto, unfolding(crate::specs::Program::fault_in, crate::specs::Program::IsAssembled))]
pub fn assemble(alloc: Global, text: &[u8]) -> Result<Vec<u32>, AsmError>
    ensures ok { IfOk result (λ words. IsAssembled text.now words.items) }
    ensures bad { IfErr result (IsTold (fault_in text.now)) }
    // To tell that a text is too long takes no memory.
    ensures too_long { TEXT_BYTES < length text.now → result ≡ Err (AsmError.Bad 0 AsmCause.Long) }
{
    if text.len() > TEXT_BYTES {
        return Err(AsmError::Bad {
            line: 0,
            cause: AsmCause::Long,
        });
    }
    let Ok(program) = program_of(alloc, text) else {
        return Err(AsmError::Memory);
    };
    let mut words = Vec::new(alloc);
    for k in 0..program.len() {
        let found = match word_of(&program, &program[..k], &program[k], words.len()) {
            Ok(found) => found,
            Err(cause) => {
                return Err(AsmError::Bad {
                    line: k as u32 + 1,
                    cause,
                });
            }
        };
        let Ok(()) = push_found(&mut words, found) else {
            return Err(AsmError::Memory);
        };
    }
    Ok(words)
}

/// Adds a word, where there is one.
fn push_found(words: &mut Vec<u32>, found: Option<u32>) -> Result<(), AllocError>
    ensures items { OnOk result (words.new.items ≡ words.old.items ++ option_to_list found) }
    ensures len { OnOk result (vec_len words.new ≡ vec_len words.old + length (option_to_list found)) }
{
    if let Some(word) = found {
        words.push(word)?;
    }
    Ok(())
}
