//! The lines of a text.

ghost use Rattle.std.specs.Prelude.{◌≡◌, ◌<◌, ◌≤◌, ◌+◌, ◌∷◌, IfOk, IfSome, map, length, vec_len};
ghost use Rattle.std.specs.List.{All};
ghost use Rattle.std.specs.Option.{option_copied};
ghost use Rattle.rv_asm.specs.Lines.{lines_after};
ghost use Rattle.rv_asm.specs.Program.{lines_of, program_of, without_return};
ghost use Rattle.rv_asm.specs.View.{seen, view, IsStatement};

use crate::error::AsmCause;
use crate::statement::{Statement, statement_of};
use crate::text::{split_before, without_last};
use std::alloc::{AllocError, Global};

/// A line of the program: what it says, or its fault.
pub type Line<'a> = Result<Statement<'a>, AsmCause>;

/// A line without the CR at its end.
fn without_return(line: &[u8]) -> &[u8]
    ensures { result.now ≡ without_return line.now }
{
    match without_last(line, b'\r') {
        Some(kept) => kept,
        None => line,
    }
}

/// The first line, and the text behind its LF where there is one.
fn first_line(text: &[u8]) -> (&[u8], Option<&[u8]>)
    ensures lines { lines_of text.now ≡ result.0.now ∷ lines_after (option_copied result.1) }
    ensures shorter { IfSome result.1 (λ more. length more.now < length text.now) }
{
    match split_before(text, b'\n', b'\n') {
        (line, [_, more @ ..]) => (without_return(line), Some(more)),
        (line, _) => (line, None),
    }
}

/// What each line says.
pub fn program_of(alloc: Global, text: &[u8]) -> Result<Vec<Line<'_>>, AllocError>
    ensures said { IfOk result (λ v. map (seen view) v.items ≡ program_of text.now) }
    ensures in_range { IfOk result (λ v. All (λ line. IfOk line IsStatement) v.items) }
    ensures few { IfOk result (λ v. vec_len v ≤ length text.now + 1) }
{
    let mut program = Vec::new(alloc);
    let mut left = Some(text);
    while let Some(current) = left {
        let (line, more) = first_line(current);
        program.push(statement_of(line))?;
        left = more;
    }
    Ok(program)
}
