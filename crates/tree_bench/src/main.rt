//! A program that changes nodes, so that the instructions of the calls can be counted.
//!
//! Stands on `qx_ptree` for the calls and on `qx_blocks` for blocks in memory; nothing stands on it, and it goes once the commands reach these calls.
//! Its contract: whatever is answered, a node can be asked and changed again, a refusal has a reason of `specs/Refusals.antt`, and a change that was made tells how many fresh blocks it took.
//! It keeps no state, and all its blocks are in memory.
//! It prints nothing on the output. Only its tests ask a device.
#![tactic(auto)]

mod changes;
mod repeats;
mod words;

use anyhow::{Context, Result};
use repeats::repeat;
use std::rt::Env;
use std::{env, io};
use words::{Task, USAGE};

fn main(rt: HostRuntime) -> Result<()> {
    let words = words_of(&rt)?;
    let task = Task::read(&words).context(USAGE)?;
    repeat(rt.alloc(), task)?;
    Ok(())
}

/// The words after the program's own name.
fn words_of<R: Env + AllocGlobal>(rt: &R) -> io::Result<Vec<String>> {
    let mut all = env::args(rt)?;
    let _name = all.next();
    Ok(all.collect(rt.alloc())?)
}

#[cfg(test)]
mod tests;
