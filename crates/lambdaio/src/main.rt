//! λ-IO: a file tool over a simulated drive, with functions. The top call does all that its words ask for.
#![tactic(auto)]

use edge_io::{HostRoom, StdSink};
use gates::OpenGate;
use stack_top::{Status, stack_main};
use std::io::ErrorKind;
use std::process::ExitCode;
use std::{env, io};

// The words behind the program's own name.
fn words(rt: &HostRuntime) -> io::Result<Vec<String>> {
    Ok(env::args(rt)?.skip(1).collect(rt.alloc())?)
}

fn main(rt: HostRuntime) -> ExitCode {
    let words = match words(&rt) {
        Ok(words) => words,
        Err(e) if e.kind() == ErrorKind::OutOfMemory => {
            return ExitCode::from(Status::NoMemory.code());
        }
        // A word that is no text is outside the grammar, as no word at all is.
        Err(_) => Vec::new(rt.alloc()),
    };
    let mut room = HostRoom::new(&rt);
    let mut out = StdSink::new(&rt);
    let status = stack_main(rt.alloc(), &rt, &words, &mut room, &mut out, &OpenGate);
    ExitCode::from(status.code())
}
