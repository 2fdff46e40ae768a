//! Single words of a line: byte words, numbers and modes.
ghost use Rattle.std.specs.Prelude.{◌≡◌, ◌≤◌, ◌<◌, ◌+◌, ◌*◌, Err, IfOk, IfErr, IfSome, drop, length};
ghost use Rattle.qx_words.specs.ByteWords.{hex_value, is_plain};
ghost use Rattle.qx_words.specs.Numbers.{is_octal_digit};
ghost use Rattle.qx_words.specs.Reading.{FailsAs, IsPart, IsStep, bad, first_digit_of, mode_from, next_digit, next_octal, number_from, step_here, taken, word_from};

use crate::{LINE_LIMIT, LineFault};
use qx_outside::ByteList;
use std::alloc::Global;

/// How far the next byte of a byte word is read.
#[derive(Clone, Copy, Debug, PartialEq, Eq)]
pub enum Part {
    /// Nothing of it yet.
    Whole,
    /// The `\`.
    Escaped,
    /// The `\` and a first digit of this value.
    Half(u8),
}

/// What a byte of the line does to a byte word.
#[derive(Clone, Copy, Debug, PartialEq, Eq)]
pub enum WordStep {
    /// A byte of this value is whole.
    Whole(u8),
    /// The byte is read so far.
    Inside(Part),
    /// The word ends before it.
    Ends,
    /// No word goes on so.
    Fails,
}

/// A line that goes wrong there.
pub fn bad_line<T>(at: usize) -> Result<T, LineFault>
    requires { at ≤ LINE_LIMIT }
    ensures { result ≡ bad at }
{
    Err(LineFault::BadLine { at: at as u32 })
}

fn is_plain_byte(byte: u8) -> bool
    ensures { result ≡ is_plain byte }
{
    matches!(byte, 0x21..=0x7E if byte != b'\\') || byte >= 0x80
}

fn hex_digit(byte: u8) -> Option<u8>
    ensures value { result ≡ hex_value byte }
    ensures small { IfSome result (λ digit. digit < 16) }
{
    match byte {
        b'0'..=b'9' => Some(byte - 48),
        b'a'..=b'f' => Some(byte - 87),
        b'A'..=b'F' => Some(byte - 55),
        _ => None,
    }
}

// What comes at `at` to a byte word that may reach to `stop`.
fn step_at(line: &[u8], part: Part, at: usize, stop: usize) -> WordStep
    requires half { IsPart part }
    requires short { length line.now ≤ LINE_LIMIT }
    requires within { at ≤ length line.now }
    ensures step { result ≡ step_here part at stop (drop at line.now) }
    ensures part { IsStep at (length line.now) result }
{
    let Some(byte) = line.get(at) else {
        return if part == Part::Whole {
            WordStep::Ends
        } else {
            WordStep::Fails
        };
    };
    match part {
        Part::Whole => {
            if is_plain_byte(*byte) && at < stop {
                WordStep::Whole(*byte)
            } else if *byte == b'\\' && at + 3 <= stop {
                WordStep::Inside(Part::Escaped)
            } else {
                WordStep::Ends
            }
        }
        Part::Escaped => match hex_digit(*byte) {
            Some(high) => WordStep::Inside(Part::Half(high)),
            None => WordStep::Fails,
        },
        Part::Half(high) => match hex_digit(*byte) {
            Some(low) => WordStep::Whole(16 * high + low),
            None => WordStep::Fails,
        },
    }
}

/// The byte word at `at`, as far as it goes before `stop`, and the place behind it.
pub fn read_word(
    alloc: Global,
    line: &[u8],
    at: usize,
    stop: usize,
) -> Result<(ByteList, usize), LineFault>
    requires short { length line.now ≤ LINE_LIMIT }
    requires within { at ≤ length line.now }
    ensures ok { IfOk result (λ r. word_from at stop (drop at line.now) ≡ taken r.0 r.1) }
    ensures err { IfErr result (FailsAs (word_from at stop (drop at line.now))) }
    ensures place { IfOk result (λ r. r.1 ≤ length line.now) }
{
    let mut bytes = ByteList::new(alloc);
    let mut part = Part::Whole;
    let mut place = at;
    loop {
        match step_at(line, part, place, stop) {
            WordStep::Whole(byte) => {
                if bytes.push(byte).is_err() {
                    return Err(LineFault::NoMemory);
                }
                part = Part::Whole;
            }
            WordStep::Inside(next) => part = next,
            WordStep::Ends => break,
            WordStep::Fails => return bad_line(place),
        }
        place += 1;
    }
    if bytes.bytes().is_empty() {
        return bad_line(at);
    }
    Ok((bytes, place))
}

// The first digit of a number from `low` on, where one stands at `at`.
fn first_digit(line: &[u8], at: usize, stop: usize, low: u64) -> Option<u64>
    ensures digit { result ≡ first_digit_of low at stop (drop at line.now) }
    ensures within { IfSome result (λ n. (at < length line.now) × (n ≤ 9)) }
{
    let byte = *line.get(at)?;
    if byte.is_ascii_digit() && at < stop && u64::from(byte - 48) >= low {
        Some(u64::from(byte - 48))
    } else {
        None
    }
}

// The number with the digit at `at`, where it goes on so.
fn longer_number(line: &[u8], at: usize, stop: usize, limit: u64, n: u64) -> Option<u64>
    ensures number { result ≡ next_digit limit at stop n (drop at line.now) }
    ensures within { IfSome result (λ n. (at < length line.now) × (n ≤ limit)) }
{
    let byte = *line.get(at)?;
    if !byte.is_ascii_digit() || at >= stop || n == 0 {
        return None;
    }
    let digit = u64::from(byte - 48);
    if digit <= limit && n <= (limit - digit) / 10 {
        Some(10 * n + digit)
    } else {
        None
    }
}

/// The number at `at`, as far as it stays within `limit`, and the place behind it. It is `low` at least, where that is 0 or 1.
pub fn read_number(
    line: &[u8],
    at: usize,
    stop: usize,
    low: u64,
    limit: u64,
) -> Result<(u64, usize), LineFault>
    requires short { length line.now ≤ LINE_LIMIT }
    requires within { at ≤ length line.now }
    requires limit { 9 ≤ limit }
    ensures ok { IfOk result (λ r. number_from low limit at stop (drop at line.now) ≡ taken r.0 r.1) }
    ensures err { IfErr result (λ e. number_from low limit at stop (drop at line.now) ≡ Err e) }
    ensures most { IfOk result (λ r. r.0 ≤ limit) }
    ensures place { IfOk result (λ r. r.1 ≤ length line.now) }
{
    let Some(first) = first_digit(line, at, stop, low) else {
        return bad_line(at);
    };
    let mut n = first;
    let mut place = at + 1;
    while let Some(longer) = longer_number(line, place, stop, limit, n) {
        n = longer;
        place += 1;
    }
    Ok((n, place))
}

// The mode with the digit at `at`, where fewer than four digits are before it.
fn longer_mode(line: &[u8], at: usize, stop: usize, left: usize, mode: u16) -> Option<u16>
    requires { 0 < left → mode < 512 }
    ensures mode { result ≡ next_octal left at stop mode (drop at line.now) }
    ensures within { IfSome result (λ m. (at < length line.now) × (0 < left) × (m < 8 * mode + 8)) }
{
    let byte = *line.get(at)?;
    if is_octal(byte) && at < stop && 0 < left {
        Some(8 * mode + u16::from(byte - 48))
    } else {
        None
    }
}

/// The mode at `at`, and the place behind it.
pub fn read_mode(line: &[u8], at: usize, stop: usize) -> Result<(u16, usize), LineFault>
    requires short { length line.now ≤ LINE_LIMIT }
    requires within { at ≤ length line.now }
    ensures ok { IfOk result (λ r. mode_from at stop (drop at line.now) ≡ taken r.0 r.1) }
    ensures err { IfErr result (λ e. mode_from at stop (drop at line.now) ≡ Err e) }
    ensures place { IfOk result (λ r. r.1 ≤ length line.now) }
{
    let mut mode = 0;
    let mut place = at;
    while let Some(longer) = longer_mode(line, place, stop, at + 4 - place, mode) {
        mode = longer;
        place += 1;
    }
    if place == at {
        return bad_line(at);
    }
    Ok((mode, place))
}

fn is_octal(byte: u8) -> bool
    ensures { result ≡ is_octal_digit byte }
{
    matches!(byte, b'0'..=b'7')
}
