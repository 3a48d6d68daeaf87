//! The image of a job's program.

ghost use Rattle.std.specs.Prelude.{◌≡◌, ◌≤◌, ◌*◌, ℕ, IfOk, length, take};
ghost use Rattle.sls_kernel.specs.Program.{IsOfCode, program_bytes};
ghost use Rattle.job_script.specs.Job.{words_of};
ghost use Rattle.job_run.specs.Report.{code_bytes, code_page};

use job_script::Line;
use sls_base::{Image, Program, REGION_RIGHTS, RegionSpec};
use std::alloc::{AllocError, Global};

/// The channels of a program of code words: all outputs, the input and the root group.
const ALL_CHANNELS: u8 = 63;

/// The bytes of the job's code words, in order, each word with its lowest byte first.
fn code_of(alloc: Global, lines: &[Line]) -> Result<Vec<u8>, AllocError>
    ensures { IfOk result (λ code. code.items ≡ code_bytes (words_of lines.now)) }
{
    let mut code = Vec::new(alloc);
    for line in lines {
        if let Line::Code(word) = line {
            code.extend_from_slice(&word.to_le_bytes())?;
        }
    }
    Ok(code)
}

/// The image of a program of these code bytes: one thread that begins at address 0, and one page there, to read, to write
/// and to execute.
pub fn image_of(alloc: Global, content: Vec<u8>) -> Result<Image, AllocError>
    requires { length content.items ≤ 4096 }
    ensures of_code { IfOk result IsOfCode }
    ensures bytes { IfOk result (λ image. program_bytes image ≡ code_page content.items) }
{
    let mut regions = Vec::new(alloc);
    regions.push(RegionSpec {
        base: 0,
        pages: 1,
        rights: REGION_RIGHTS,
        content,
    })?;
    let mut programs = Vec::new(alloc);
    programs.push(Program {
        entry: 0,
        threads: 1,
        channels: ALL_CHANNELS,
        regions,
    })?;
    Ok(Image { programs })
}

/// The image of a job's program.
pub fn image_of_lines(alloc: Global, lines: &[Line]) -> Result<Image, AllocError>
    requires { length (words_of lines.now) ≤ 1024 }
    ensures of_code { IfOk result IsOfCode }
    ensures bytes { IfOk result (λ image. program_bytes image ≡ code_page (code_bytes (words_of lines.now))) }
{
    let content = code_of(alloc, lines)?;
    image_of(alloc, content)
}
