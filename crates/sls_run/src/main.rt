//! The program: runs the job on standard input, and reports on standard output.
#![tactic(auto)]

ghost use Rattle.std.specs.Prelude.{◌≡◌, ◌↔◌, [], drop, IsOk, IfOk, IfErr, OnErr};
ghost use Rattle.std.specs.Vec.Iter.{into_iter_items};
ghost use Rattle.std.specs.IoError.{error_kind};

#[cfg(test)]
mod tests;

use job_run::{no_memory, run_job};
use pmem_model::Pmem;
use sls_io::{MemShelf, StdSink, StdSource};
use std::alloc::{AllocError, Global};
use std::env::{self, Args};
use std::io::{self, ErrorKind};
use std::process::ExitCode;

/// The words behind the first, which is the program's name, in order; and none where one is no text.
fn words_of(alloc: Global, args: io::Result<Args>) -> Result<Vec<String>, AllocError>
    ensures words { IfOk args (λ all. IfOk result (λ words. words.items ≡ drop 1 (into_iter_items all))) }
    ensures no_text { IfErr args (λ error. IsOk result ↔ (error_kind error ≡ ErrorKind.InvalidData)) }
    ensures none { OnErr args (IfOk result (λ words. words.items ≡ [])) }
{
    match args {
        Ok(args) => args.skip(1).collect(alloc),
        Err(error) if error.kind() == ErrorKind::InvalidData => Ok(Vec::new(alloc)),
        Err(_) => Err(AllocError),
    }
}

/// Runs the job on standard input, and reports on standard output. The words behind the program's name are to be
/// exactly `run`.
fn main(rt: HostRuntime) -> ExitCode {
    let alloc = rt.alloc();
    let mut job = StdSource::new(rt.stdin());
    let mut out = StdSink::new(rt.stdout());
    let mut shelf = MemShelf::new(alloc);
    let (Ok(words), Ok(nvm)) = (words_of(alloc, env::args(&rt)), Pmem::new(alloc)) else {
        return no_memory(&mut out).exit_code();
    };
    let (status, _) = run_job(alloc, &words, &mut job, &mut out, &mut shelf, nvm);
    status.exit_code()
}
