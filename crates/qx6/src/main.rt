//! The program: tools for the Power-Safe file system over disk images.
//!
//! Stands on `qx_top`, which does what the words say over any host, and on `qx_outside`, whose traits `RealHost` has; nothing stands on it.
//! Its contract: a call of `RealHost` fails only where its count of faults rose, that of the device or that of the console.
//! The counts never fall. The host tells nothing of what was done: what a call of the system does is trusted.
//! It never reads, writes or prints but through `RealHost`, and never ends the process before `main` returns.
#![tactic(auto)]

mod real;

use qx_top::{Ended, Line, Status, run, say};
use real::RealHost;
use std::process::ExitCode;
use std::rt::Env;
use std::{env, io};

fn main(rt: HostRuntime) -> ExitCode {
    let mut host = RealHost::new(rt);
    let status = match words(&rt) {
        Ok(words) => {
            let Ended { status, host: _ } = run(rt.alloc(), &words, host);
            status
        }
        Err(error) if error.kind() == io::ErrorKind::OutOfMemory => {
            say(&mut host, Line::NoMemory, Status::NoMemory).code()
        }
        // A word that is not UTF-8 is no word of any tool.
        Err(_) => say(&mut host, Line::Usage, Status::BadWords).code(),
    };
    ExitCode::from(status)
}

/// The words after the program's own name.
fn words<R: Env + AllocGlobal>(rt: &R) -> io::Result<Vec<String>> {
    let mut all = env::args(rt)?;
    let _name = all.next();
    Ok(all.collect(rt.alloc())?)
}
