//! One turn of a volume: what a session asks for, and what it is told.
use crate::{Notices, Op, Reply};
use qx_outside::ByteList;

/// What a session asks for in one turn.
#[derive(Drop)]
pub enum Act {
    /// An operation on the tree.
    Op(Op),
    /// The session goes to the directory to which a path leads.
    Cd(ByteList),
    /// How much is in use.
    Df,
    /// The session keeps new snapshots away.
    Hold,
    /// It does so no longer.
    Unhold,
    /// A snapshot of all that changed.
    Sync,
    /// The same, where a path leads somewhere.
    Fsync(ByteList),
    /// Nothing but time passes.
    Tick,
    /// All sessions' holds are dropped, and a last snapshot is made of all that changed.
    End,
}

/// An act of a session at a moment.
#[derive(Drop)]
pub struct VolEvent {
    /// The sessions are 0 to 15; a greater number is refused, but for the end.
    pub session: u64,
    /// In seconds since 1970.
    pub moment: u32,
    /// What is asked for.
    pub act: Act,
}

/// What a turn answers.
#[derive(Drop)]
pub struct Turn {
    /// To the act.
    pub reply: Reply,
    /// What happened beside it.
    pub notices: Notices,
}
