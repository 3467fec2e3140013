//! The program `progress`: it runs one SELECT over CSV files and shows, while it runs, how much of the work is done.
//!
//! `monitor_main` is the top call: its contract says what the program writes, and when each status comes.
#![tactic(auto)]

pub mod lines;
pub mod status;
#[cfg(test)]
mod tests;
pub mod top;

use pm_io::{OsFiles, OsSink};
pub use pm_requests::Role;
use pm_values::{OpenGate, Txt};
pub use status::Status;
use std::alloc::{AllocError, Global};
use std::env;
use std::io::ErrorKind;
use std::process::ExitCode;
pub use top::monitor_main;

/// The words after the program's name. There are none where one of them is no text, so that the command is refused.
fn words(rt: &HostRuntime) -> Result<Vec<Txt>, AllocError> {
    let alloc: Global = rt.alloc();
    let mut words = Vec::new(alloc);
    match env::args(rt) {
        Ok(args) => {
            for word in args.skip(1) {
                words.push(Txt::new(alloc, word.as_str())?)?;
            }
            Ok(words)
        }
        Err(error) if error.kind() == ErrorKind::OutOfMemory => Err(AllocError),
        Err(_) => Ok(words),
    }
}

fn main(rt: HostRuntime) -> ExitCode {
    let Ok(words) = words(&rt) else {
        return ExitCode::from(Status::NoMemory.code());
    };
    let mut files = OsFiles::new(&rt);
    let mut out = OsSink::new(rt.stdout());
    let status = monitor_main(
        &rt,
        rt.alloc(),
        words.as_slice(),
        &mut files,
        &mut out,
        &OpenGate,
    );
    ExitCode::from(status.code())
}
