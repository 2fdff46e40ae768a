//! What the words behind a verb say, one after another.
ghost use Rattle.std.specs.Prelude.{◌≡◌, ◌≤◌, ◌-◌, ◌*◌, Ok, Err, IfOk, IfErr, drop, length};
ghost use Rattle.qx_words.specs.Commands.{no_arguments};
ghost use Rattle.qx_words.specs.Reading.{FailsAs, argument_from, arguments_from, bad, number_from, space_at, taken};

use crate::grammar::Argument;
use crate::words::{bad_line, read_mode, read_number, read_word};
use crate::{LINE_LIMIT, LineFault};
use qx_outside::ByteList;
use std::alloc::Global;

/// What the words behind a command's name say; 0 or no bytes where it has none.
#[derive(Drop)]
pub struct Arguments {
    /// A path, a target or a first name.
    pub path: ByteList,
    /// A second name, or bytes to write.
    pub other: ByteList,
    /// A place or a size, in bytes.
    pub at: u64,
    /// How many bytes are read.
    pub count: u32,
    /// How many bytes are filled.
    pub fill: u64,
    /// The byte that fills.
    pub byte: u8,
    /// At most four octal digits.
    pub mode: u16,
    pub uid: u32,
    pub gid: u32,
    pub atime: u32,
    pub mtime: u32,
}

impl Arguments {
    /// Nothing is said yet.
    fn new(alloc: Global) -> Arguments
        ensures { result ≡ no_arguments }
    {
        Arguments {
            path: ByteList::new(alloc),
            other: ByteList::new(alloc),
            at: 0,
            count: 0,
            fill: 0,
            byte: 0,
            mode: 0,
            uid: 0,
            gid: 0,
            atime: 0,
            mtime: 0,
        }
    }
}

/// The place behind one space.
pub fn read_space(line: &[u8], at: usize) -> Result<usize, LineFault>
    requires short { length line.now ≤ LINE_LIMIT }
    requires within { at ≤ length line.now }
    ensures ok { IfOk result (λ place. space_at at (drop at line.now) ≡ Ok place) }
    ensures err { IfErr result (λ e. (e ≡ LineFault.BadLine at) × (space_at at (drop at line.now) ≡ bad at)) }
    ensures place { IfOk result (λ place. place ≤ length line.now) }
{
    match line.get(at) {
        Some(b' ') => Ok(at + 1),
        _ => bad_line(at),
    }
}

// Puts the number at `at`, as far as it stays within `limit`, and answers the place behind it.
fn put_u32(
    line: &[u8],
    at: usize,
    stop: usize,
    limit: u32,
    into: &mut u32,
) -> Result<usize, LineFault>
    requires short { length line.now ≤ LINE_LIMIT }
    requires within { at ≤ length line.now }
    requires limit { 9 ≤ limit }
    ensures ok { IfOk result (λ place. number_from 0 limit at stop (drop at line.now) ≡ taken into.new place) }
    ensures err { IfErr result (λ e. number_from 0 limit at stop (drop at line.now) ≡ Err e) }
    ensures place { IfOk result (λ place. place ≤ length line.now) }
{
    let (n, place) = read_number(line, at, stop, 0, u64::from(limit))?;
    *into = n as u32;
    Ok(place)
}

// One argument from `at` on, before `stop`, and the place behind it.
#[tactic(auto, using(crate::proofs::ArgumentSteps::fails_then, crate::proofs::ArgumentSteps::then_taken), unfolding(crate::specs::Reading::argument_from))]
fn read_argument(
    alloc: Global,
    argument: Argument,
    line: &[u8],
    at: usize,
    stop: usize,
    arguments: &mut Arguments,
) -> Result<usize, LineFault>
    requires short { length line.now ≤ LINE_LIMIT }
    requires within { at ≤ length line.now }
    ensures ok { IfOk result (λ place. argument_from argument at stop (drop at line.now) arguments.old ≡ taken arguments.new place) }
    ensures err { IfErr result (FailsAs (argument_from argument at stop (drop at line.now) arguments.old)) }
    ensures place { IfOk result (λ place. place ≤ length line.now) }
{
    match argument {
        Argument::Path => {
            let (word, place) = read_word(alloc, line, at, stop)?;
            arguments.path = word;
            Ok(place)
        }
        Argument::Other => {
            let (word, place) = read_word(alloc, line, at, stop)?;
            arguments.other = word;
            Ok(place)
        }
        Argument::At => {
            let (n, place) = read_number(line, at, stop, 0, u64::MAX)?;
            arguments.at = n;
            Ok(place)
        }
        Argument::Count => put_u32(line, at, stop, 65536, &mut arguments.count),
        Argument::FillCount => {
            let (n, place) = read_number(line, at, stop, 1, 1 << 48)?;
            arguments.fill = n;
            Ok(place)
        }
        Argument::Byte => {
            let (n, place) = read_number(line, at, stop, 0, 255)?;
            arguments.byte = n as u8;
            Ok(place)
        }
        Argument::Mode => {
            let (n, place) = read_mode(line, at, stop)?;
            arguments.mode = n;
            Ok(place)
        }
        Argument::Uid => put_u32(line, at, stop, u32::MAX, &mut arguments.uid),
        Argument::Gid => put_u32(line, at, stop, u32::MAX, &mut arguments.gid),
        Argument::Atime => put_u32(line, at, stop, u32::MAX, &mut arguments.atime),
        Argument::Mtime => put_u32(line, at, stop, u32::MAX, &mut arguments.mtime),
    }
}

/// Arguments from `at` on, each after a space, and the place behind them.
pub fn read_arguments(
    alloc: Global,
    wanted: &[Argument],
    line: &[u8],
    at: usize,
) -> Result<(Arguments, usize), LineFault>
    requires short { length line.now ≤ LINE_LIMIT }
    requires within { at ≤ length line.now }
    requires few { length wanted.now ≤ 8 }
    ensures ok { IfOk result (λ r. arguments_from wanted.now at line.now no_arguments ≡ taken r.0 r.1) }
    ensures err { IfErr result (FailsAs (arguments_from wanted.now at line.now no_arguments)) }
    ensures place { IfOk result (λ r. r.1 ≤ length line.now) }
{
    let mut arguments = Arguments::new(alloc);
    let mut place = at;
    for (i, argument) in wanted.iter().enumerate() {
        let start = read_space(line, place)?;
        // Each argument that follows takes a space and a byte at least.
        let stop = LINE_LIMIT - 2 * (wanted.len() - 1 - i);
        place = read_argument(alloc, *argument, line, start, stop, &mut arguments)?;
    }
    Ok((arguments, place))
}
