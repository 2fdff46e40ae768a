//! How a line is read, in one pass from its first byte to its last.
ghost use Rattle.std.specs.Prelude.{◌≡◌, List, ◌≤◌, ◌<◌, ◌+◌, Ok, Err, IfOk, IfErr, IfSome, drop, length, max, codes};
ghost use Rattle.qx_words.specs.Commands.{act_of, name_of};
ghost use Rattle.qx_words.specs.Reading.{FailsAs, act_from, command_from, first_word, furthest, line_from, session_from, shared, taken, verb_named};
ghost use Rattle.qx_words.specs.Lines.{IsFaultOf, IsLine};

use crate::arguments::{Arguments, read_arguments, read_space};
use crate::grammar::{VERBS, Verb};
use crate::words::{bad_line, read_number};
use crate::{LINE_LIMIT, Line, LineFault};
use qx_model::{Act, Op};
use qx_outside::ByteList;
use std::alloc::Global;

// The bytes up to the next space.
fn word_at(line: &[u8], at: usize) -> &[u8]
    requires { at ≤ length line.now }
    ensures word { result.now ≡ first_word (drop at line.now) }
    ensures within { at + length result.now ≤ length line.now }
{
    let mut end = at;
    while end < line.len() && line[end] != b' ' {
        end += 1;
    }
    &line[at..end]
}

// The command of this name.
#[tactic(auto, using(crate::proofs::NamedVerbs::name_of_named))]
fn verb_of(name: &[u8]) -> Option<Verb>
    ensures verb { result ≡ verb_named name.now }
    ensures name { IfSome result (λ verb. name_of verb ≡ name.now) }
{
    VERBS
        .iter()
        .copied()
        .find(|verb| verb.name().as_bytes() == name)
}

// How many first bytes two lists share.
fn shared_length(name: &[u8], bytes: &[u8]) -> usize
    ensures shared { result ≡ shared name.now bytes.now }
    ensures within { result ≤ length bytes.now }
{
    let mut count = 0;
    while count < name.len() && count < bytes.len() && name[count] == bytes[count] {
        count += 1;
    }
    count
}

// How far the bytes go as the name of some command.
#[tactic(auto, unfolding(crate::specs::Reading::furthest))]
fn furthest_verb(bytes: &[u8]) -> usize
    ensures { result ≡ furthest bytes.now }
{
    VERBS.iter().fold(0, |most, verb| {
        most.max(shared_length(verb.name().as_bytes(), bytes))
    })
}

// Bytes put into a file.
fn write_act(path: ByteList, at: u64, bytes: ByteList) -> Act
    ensures { result ≡ Act.Op (Op.Write path at bytes) }
{
    Act::Op(Op::Write { path, at, bytes })
}

// One byte put so many times.
fn fill_act(path: ByteList, at: u64, count: u64, byte: u8) -> Act
    ensures { result ≡ Act.Op (Op.Fill path at count byte) }
{
    Act::Op(Op::Fill {
        path,
        at,
        count,
        byte,
    })
}

// A row moves.
fn rename_act(from: ByteList, to: ByteList) -> Act
    ensures { result ≡ Act.Op (Op.Rename from to) }
{
    Act::Op(Op::Rename { from, to })
}

// One more row.
fn link_act(old: ByteList, new: ByteList) -> Act
    ensures { result ≡ Act.Op (Op.Link old new) }
{
    Act::Op(Op::Link { old, new })
}

// A link to a target.
fn symlink_act(target: ByteList, new: ByteList) -> Act
    ensures { result ≡ Act.Op (Op.Symlink target new) }
{
    Act::Op(Op::Symlink { target, new })
}

// What a command asks for with its arguments.
fn act_with(verb: Verb, arguments: Arguments) -> Act
    ensures { result ≡ act_of verb arguments }
{
    let Arguments {
        path,
        other,
        at,
        count,
        fill,
        byte,
        mode,
        uid,
        gid,
        atime,
        mtime,
    } = arguments;
    match verb {
        Verb::List => Act::Op(Op::List { path }),
        Verb::Stat => Act::Op(Op::Stat { path }),
        Verb::ReadLink => Act::Op(Op::ReadLink { path }),
        Verb::Read => Act::Op(Op::Read { path, at, count }),
        Verb::Create => Act::Op(Op::Create { path }),
        Verb::Mkdir => Act::Op(Op::Mkdir { path }),
        Verb::Write => write_act(path, at, other),
        Verb::Fill => fill_act(path, at, fill, byte),
        Verb::Truncate => Act::Op(Op::Truncate { path, size: at }),
        Verb::Remove => Act::Op(Op::Remove { path }),
        Verb::RemoveDir => Act::Op(Op::RemoveDir { path }),
        Verb::Rename => rename_act(path, other),
        Verb::Link => link_act(path, other),
        Verb::Symlink => symlink_act(path, other),
        Verb::Chmod => Act::Op(Op::Chmod { path, mode }),
        Verb::Chown => Act::Op(Op::Chown { path, uid, gid }),
        Verb::Utime => Act::Op(Op::Utime { path, atime, mtime }),
        Verb::Cd => Act::Cd(path),
        Verb::Df => Act::Df,
        Verb::Hold => Act::Hold,
        Verb::Unhold => Act::Unhold,
        Verb::Sync => Act::Sync,
        Verb::Fsync => Act::Fsync(path),
        Verb::Tick => Act::Tick,
        Verb::Quit => Act::End,
    }
}

// The act that lists the current directory.
fn list_here(alloc: Global) -> Result<Act, LineFault>
    ensures ok { IfOk result (λ act. act ≡ Act.Op (Op.List (codes "."))) }
    ensures err { IfErr result (λ e. e ≡ LineFault.NoMemory) }
{
    let mut path = ByteList::new(alloc);
    if path.push(b'.').is_err() {
        return Err(LineFault::NoMemory);
    }
    Ok(Act::Op(Op::List { path }))
}

// What a command asks for, with the arguments from `at` on.
#[tactic(auto, using(crate::proofs::ArgumentSteps::fails_then, crate::proofs::ArgumentSteps::then_taken))]
fn read_act(alloc: Global, verb: Verb, line: &[u8], at: usize) -> Result<Act, LineFault>
    requires short { length line.now ≤ LINE_LIMIT }
    requires within { at ≤ length line.now }
    ensures ok { IfOk result (λ act. act_from verb at line.now ≡ Ok act) }
    ensures err { IfErr result (FailsAs (act_from verb at line.now)) }
{
    if verb == Verb::List && at == line.len() {
        return list_here(alloc);
    }
    let (arguments, place) = read_arguments(alloc, verb.arguments(), line, at)?;
    if place == line.len() {
        Ok(act_with(verb, arguments))
    } else {
        bad_line(place)
    }
}

// The command from `at` on.
#[tactic(auto, using(crate::proofs::NamedVerbs::furthest_within), unfolding(crate::specs::Reading::command_from))]
fn read_command(alloc: Global, line: &[u8], at: usize) -> Result<Act, LineFault>
    requires short { length line.now ≤ LINE_LIMIT }
    requires within { at ≤ length line.now }
    ensures ok { IfOk result (λ act. command_from at line.now ≡ Ok act) }
    ensures err { IfErr result (FailsAs (command_from at line.now)) }
{
    let name = word_at(line, at);
    match verb_of(name) {
        Some(verb) => read_act(alloc, verb, line, at + name.len()),
        None => bad_line(at + furthest_verb(&line[at..])),
    }
}

// The session that a line names, or 0, and the place behind it.
#[tactic(auto, using(crate::proofs::ArgumentSteps::fails_then, crate::proofs::ArgumentSteps::then_taken))]
fn read_session(line: &[u8]) -> Result<(u64, usize), LineFault>
    requires short { length line.now ≤ LINE_LIMIT }
    ensures ok { IfOk result (λ r. session_from line.now ≡ taken r.0 r.1) }
    ensures err { IfErr result (λ e. session_from line.now ≡ Err e) }
    ensures place { IfOk result (λ r. r.1 ≤ length line.now) }
{
    if line.first() != Some(&b'@') {
        return Ok((0, 0));
    }
    // A space and the shortest command follow.
    let (session, place) = read_number(line, 1, LINE_LIMIT - 3, 0, u64::MAX)?;
    let place = read_space(line, place)?;
    Ok((session, place))
}

// The line that the bytes are, or where they go wrong.
#[tactic(auto, using(crate::proofs::ArgumentSteps::fails_then, crate::proofs::ArgumentSteps::then_taken), unfolding(crate::specs::Reading::line_from))]
fn read_whole(alloc: Global, line: &[u8]) -> Result<Line, LineFault>
    ensures ok { IfOk result (λ l. line_from line.now ≡ Ok l) }
    ensures err { IfErr result (FailsAs (line_from line.now)) }
{
    if line.len() > LINE_LIMIT {
        return bad_line(LINE_LIMIT);
    }
    let (session, place) = read_session(line)?;
    let act = read_command(alloc, line, place)?;
    let quit = matches!(act, Act::End);
    Ok(Line { session, act, quit })
}

/// What the bytes of a line, without its newline, ask for. Memory is taken for the words of the line alone.
#[tactic(auto, using(crate::proofs::SpelledLines::line_taken, crate::proofs::LineFaults::is_fault))]
pub fn read_line(alloc: Global, line: &[u8]) -> Result<Line, LineFault>
    ensures ok { IfOk result (IsLine line.now) }
    ensures err { IfErr result (IsFaultOf line.now) }
{
    read_whole(alloc, line)
}
