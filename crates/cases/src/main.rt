// Reads a case file from standard input, performs its calls and prints what each answered.
#![tactic(auto)]

mod build;
mod calls;
mod dump;
mod faults;
mod session;
mod setup;
mod stop;
mod trees;

use reader::lines;
use std::io;
use std::io::Read;
use std::process::ExitCode;

/// Tells on standard error what is wrong with a line, after the answers to the lines before it.
// Not by the bounds `Input` and `Print`: a reader under `Input` also seeks, which is one more system call to trust.
fn run(rt: &HostRuntime) -> io::Result<ExitCode> {
    let heap = rt.alloc();
    let mut file = Vec::new(heap);
    rt.stdin().read_to_end(&mut file)?;
    let lines = lines(heap, file.as_slice())?;
    let mut output = String::new(heap);
    let performed = session::perform(heap, lines.as_slice(), &mut output);
    rt.stdout().write_all(output.as_bytes())?;
    if let Err(bad_line) = performed {
        eprintln!(rt; "{bad_line}")?;
        return Ok(ExitCode::FAILURE);
    }
    Ok(ExitCode::SUCCESS)
}

/// An exit code, and no error: what is wrong with a line is all that stands on standard error.
fn main(rt: HostRuntime) -> ExitCode {
    run(&rt).unwrap_or(ExitCode::FAILURE)
}
