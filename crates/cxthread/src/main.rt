//! The program: does by [`cxthread`] what its words ask for, on its standard input and output and real threads.
//!
//! The exit status is that of [`Status`].
#![tactic(auto)]

use cx_commands::{Status, cxthread};
use cx_io::{Real, StdIn, StdOut};
use std::process::ExitCode;
use std::{env, io};

fn main(rt: HostRuntime) -> ExitCode {
    let mut words = Vec::new(rt.alloc());
    match env::args(&rt) {
        Ok(args) => {
            for word in args.skip(1) {
                match words.push(word) {
                    Ok(()) => {}
                    Err(_) => return ExitCode::from(Status::NoMemory.number()),
                }
            }
        }
        Err(error) if error.kind() == io::ErrorKind::OutOfMemory => {
            return ExitCode::from(Status::NoMemory.number());
        }
        // An argument that isn't UTF-8 is no word that the program knows, and neither is an empty list.
        Err(_) => {}
    }
    let mut source = StdIn::new(rt.reader());
    let mut sink = StdOut::new(io::writer(&rt));
    let mut spawner = Real::new(rt.alloc());
    let (status, _fronts) = cxthread(
        &rt,
        rt.alloc(),
        &words,
        &mut source,
        &mut sink,
        &mut spawner,
    );
    ExitCode::from(status.number())
}
