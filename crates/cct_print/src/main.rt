// Reads a text trace from standard input and prints its calling context tree.

#![tactic(auto)]

use printing::{MOST_BYTES, PrintError, print_trace};
use std::io::Read;
use std::process::ExitCode;

// One byte more than a trace may have, so that a longer one is noticed.
const MOST_READ: u64 = MOST_BYTES as u64 + 1;

fn main(rt: HostRuntime) -> anyhow::Result<ExitCode> {
    let heap = rt.alloc();
    let mut text = Vec::new(heap);
    rt.stdin().take(MOST_READ).read_to_end(&mut text)?;
    match print_trace(heap, &text) {
        Ok(page) => {
            print!(rt; "{page}")?;
            Ok(ExitCode::SUCCESS)
        }
        // the line is all that a stopped run prints; a script sees the status
        Err(PrintError::Stopped(line)) => {
            print!(rt; "{line}")?;
            Ok(ExitCode::FAILURE)
        }
        Err(PrintError::NoMemory(error)) => Err(error.into()),
    }
}
