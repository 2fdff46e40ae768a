//! The lines that a run may say, and their texts, written in place without memory.
ghost use Rattle.std.specs.Prelude.{◌≡◌, ◌+◌, ◌≤◌, ◌++◌, length, codes, decimal};
ghost use Rattle.arrayvec.specs.ArrayString.{array_string_len};
ghost use Rattle.qx_top.specs.declared.lines.Line.TheVariants as lines;
ghost use Rattle.qx_top.specs.Lines.{fault_word, order_word, text_of};

use arrayvec::ArrayString;
use itoa::Buffer;
use qx_fields::Order;
use qx_geom::{GeomFault, Which};
use qx_make::Made;
use qx_view::{Finding, Foreign};

/// Room for the longest line, that about an area: 54 bytes of words, and five numbers that count as 20 digits each.
pub type Text = ArrayString<160>;

const USAGE: &str =
    "usage: mkqnx6fs [-b BLOCKSIZE] [-i INODES] [-e ORDER] IMAGE SIZE; chkqnx6fs [-s] IMAGE; shell [-r] [-g N] IMAGE\n";

/// A line that a run may say.
#[derive(Clone, Copy, Debug, PartialEq, Eq)]
pub enum Line {
    /// The words aren't accepted.
    Usage,
    /// The superblock of the active area.
    Area {
        which: Which,
        serial: u64,
        blocksize: u32,
        blocks: u32,
        inodes: u32,
        order: Order,
    },
    /// No area has a valid superblock.
    NoVolume,
    /// Both areas are valid, and are not of one volume.
    Disagree,
    /// The image is clean: its active area, that area's serial, and how many blocks and inodes are free.
    Clean {
        which: Which,
        serial: u64,
        free_blocks: u32,
        free_inodes: u32,
    },
    /// The image is foreign: the first reason, and where it applies.
    Foreign(Foreign),
    /// The image is damaged: the first test that fails.
    Damaged(Finding),
    /// A device call failed.
    DeviceFault,
    /// There was no memory.
    NoMemory,
    /// The numbers that are asked for are those of no volume.
    BadNumbers(GeomFault),
    /// A volume was made.
    Made(Made),
}

impl Line {
    /// The line's bytes, with its line feed.
    #[tactic(auto, unfolding(crate::specs::Lines::text_of))]
    pub fn text(self) -> Text
        ensures { result.bytes ≡ text_of self }
    {
        match self {
            Line::Usage => text_from(USAGE),
            Line::Area {
                which,
                serial,
                blocksize,
                blocks,
                inodes,
                order,
            } => area_text(which, serial, blocksize, blocks, inodes, order),
            Line::NoVolume => text_from("no volume\n"),
            Line::Disagree => text_from("disagree\n"),
            Line::Clean {
                which,
                serial,
                free_blocks,
                free_inodes,
            } => clean_text(which, serial, free_blocks, free_inodes),
            Line::Foreign(foreign) => foreign_text(foreign),
            Line::Damaged(finding) => damaged_text(finding),
            Line::DeviceFault => text_from("device fault\n"),
            Line::NoMemory => text_from("out of memory\n"),
            Line::BadNumbers(fault) => numbers_text(fault),
            Line::Made(made) => made_text(made),
        }
    }
}

fn text_from(words: &str) -> Text
    requires { length words.now ≤ 160 }
    ensures { result.bytes ≡ words.now }
{
    let mut text = Text::new();
    text.push_str(words);
    text
}

/// Adds words and a number behind them.
fn push(text: &mut Text, words: &str, n: u64)
    requires { array_string_len text.old + length words.now + 20 ≤ 160 }
    ensures bytes { text.new.bytes ≡ text.old.bytes ++ words.now ++ decimal n }
    ensures short { array_string_len text.new ≤ array_string_len text.old + length words.now + 20 }
{
    let mut buffer = Buffer::new();
    text.push_str(words);
    text.push_str(buffer.format(n));
}

#[tactic(auto, unfolding(crate::specs::Lines::text_of))]
fn area_text(
    which: Which,
    serial: u64,
    blocksize: u32,
    blocks: u32,
    inodes: u32,
    order: Order,
) -> Text
    ensures { result.bytes ≡ text_of (lines.Area which serial blocksize blocks inodes order) }
{
    let mut text = Text::new();
    push(&mut text, "area ", u64::from(which.number()));
    push(&mut text, " serial ", serial);
    push(&mut text, " blocksize ", u64::from(blocksize));
    push(&mut text, " blocks ", u64::from(blocks));
    push(&mut text, " inodes ", u64::from(inodes));
    text.push_str(" order ");
    text.push_str(order_name(order));
    text.push_str("\n");
    text
}

fn order_name(order: Order) -> &'static str
    ensures text { result.now ≡ order_word order }
    ensures short { length result.now ≤ 6 }
{
    match order {
        Order::Little => "little",
        Order::Big => "big",
    }
}

#[tactic(auto, unfolding(crate::specs::Lines::text_of))]
fn clean_text(which: Which, serial: u64, free_blocks: u32, free_inodes: u32) -> Text
    ensures { result.bytes ≡ text_of (lines.Clean which serial free_blocks free_inodes) }
{
    let mut text = Text::new();
    push(&mut text, "clean area ", u64::from(which.number()));
    push(&mut text, " serial ", serial);
    push(&mut text, " free blocks ", u64::from(free_blocks));
    push(&mut text, " free inodes ", u64::from(free_inodes));
    text.push_str("\n");
    text
}

#[tactic(auto, unfolding(crate::specs::Lines::text_of))]
fn foreign_text(foreign: Foreign) -> Text
    ensures { result.bytes ≡ text_of (lines.Foreign foreign) }
{
    let mut text = Text::new();
    push(&mut text, "foreign ", u64::from(foreign.reason.number()));
    push(&mut text, " at ", foreign.at);
    text.push_str("\n");
    text
}

#[tactic(auto, unfolding(crate::specs::Lines::text_of))]
fn damaged_text(finding: Finding) -> Text
    ensures { result.bytes ≡ text_of (lines.Damaged finding) }
{
    let mut text = Text::new();
    push(&mut text, "damaged ", u64::from(finding.code.number()));
    push(&mut text, " inode ", u64::from(finding.inode));
    push(&mut text, " block ", u64::from(finding.block));
    text.push_str("\n");
    text
}

#[tactic(auto, unfolding(crate::specs::Lines::text_of))]
fn numbers_text(fault: GeomFault) -> Text
    ensures { result.bytes ≡ text_of (lines.BadNumbers fault) }
{
    let mut text = Text::new();
    text.push_str("bad ");
    text.push_str(fault_name(fault));
    text.push_str("\n");
    text
}

fn fault_name(fault: GeomFault) -> &'static str
    ensures text { result.now ≡ fault_word fault }
    ensures short { length result.now ≤ 9 }
{
    match fault {
        GeomFault::BlockSize => "BlockSize",
        GeomFault::TooShort => "TooShort",
        GeomFault::TooLarge => "TooLarge",
        GeomFault::Inodes => "Inodes",
    }
}

#[tactic(auto, unfolding(crate::specs::Lines::text_of))]
fn made_text(made: Made) -> Text
    ensures { result.bytes ≡ text_of (lines.Made made) }
{
    let mut text = Text::new();
    push(&mut text, "made blocks ", u64::from(made.blocks));
    push(&mut text, " user ", u64::from(made.user));
    push(&mut text, " free ", u64::from(made.free));
    push(&mut text, " inodes ", u64::from(made.inodes));
    text.push_str("\n");
    text
}
