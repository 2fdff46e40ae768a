//! Texts of turns without memory.
ghost use Rattle.std.specs.Prelude.{◌≡◌, ◌+◌, ◌≤◌, ◌<◌, ◌++◌, ◌∷◌, [], IfSome, IfNone, true, false, drop, flat_map, length, decimal, take};
ghost use Rattle.arrayvec.specs.ArrayString.{array_string_len};
ghost use Rattle.qx_words.specs.Texts.{is_short, kind_text, mode_text, notice_text, refusal_details, refusal_name, refusal_text, space_text, stat_text, times_text, turn_text};

use arrayvec::ArrayString;
use itoa::Buffer;
use qx_model::{Attr, Notice, Refusal, Reply, SpaceView, StatView, Turn};

/// Room for the longest text of a turn that is no list, no bytes and no target.
type Text = ArrayString<512>;

fn push_number(text: &mut Text, n: u64)
    requires { array_string_len text.old + 20 ≤ 512 }
    ensures bytes { text.new.bytes ≡ text.old.bytes ++ decimal n }
    ensures short { array_string_len text.new ≤ array_string_len text.old + 20 }
{
    let mut buffer = Buffer::new();
    text.push_str(buffer.format(n));
}

fn push_octal(text: &mut Text, digit: u16)
    requires digit { digit < 8 }
    requires room { array_string_len text.old + 1 ≤ 512 }
    ensures bytes { text.new.bytes ≡ text.old.bytes ++ (48 + digit) ∷ [] }
    ensures short { array_string_len text.new ≡ array_string_len text.old + 1 }
{
    let words = ["0", "1", "2", "3", "4", "5", "6", "7"];
    text.push_str(words[usize::from(digit)]);
}

#[tactic(auto, unfolding(crate::specs::Texts::mode_text))]
fn push_mode(text: &mut Text, mode: u16)
    requires { array_string_len text.old + 4 ≤ 512 }
    ensures bytes { text.new.bytes ≡ text.old.bytes ++ mode_text mode }
    ensures short { array_string_len text.new ≡ array_string_len text.old + 4 }
{
    push_octal(text, mode / 512 % 8);
    push_octal(text, mode / 64 % 8);
    push_octal(text, mode / 8 % 8);
    push_octal(text, mode % 8);
}

fn kind_word(kind: u8) -> &'static str
    ensures text { result.now ≡ kind_text kind }
    ensures short { length result.now ≤ 7 }
{
    match kind {
        1 => "dir",
        2 => "file",
        3 => "link",
        _ => "special",
    }
}

#[tactic(auto, unfolding(crate::specs::Texts::stat_text))]
fn push_stat(text: &mut Text, view: &StatView)
    requires { array_string_len text.old ≡ 0 }
    ensures bytes { text.new.bytes ≡ text.old.bytes ++ stat_text view.now }
    ensures short { array_string_len text.new ≤ 300 }
{
    let attr = view.attr;
    text.push_str("ok ");
    text.push_str(kind_word(view.kind));
    text.push_str(" inode ");
    push_number(text, u64::from(view.inode));
    text.push_str(" size ");
    push_number(text, view.size);
    text.push_str(" mode ");
    push_mode(text, attr.mode);
    text.push_str(" uid ");
    push_number(text, u64::from(attr.uid));
    text.push_str(" gid ");
    push_number(text, u64::from(attr.gid));
    text.push_str(" links ");
    push_number(text, view.links);
    push_times(text, &attr);
    text.push_str("\n");
}

#[tactic(auto, unfolding(crate::specs::Texts::times_text))]
fn push_times(text: &mut Text, attr: &Attr)
    requires { array_string_len text.old + 108 ≤ 512 }
    ensures bytes { text.new.bytes ≡ text.old.bytes ++ times_text attr.now }
    ensures short { array_string_len text.new ≤ array_string_len text.old + 108 }
{
    text.push_str(" ftime ");
    push_number(text, u64::from(attr.ftime));
    text.push_str(" mtime ");
    push_number(text, u64::from(attr.mtime));
    text.push_str(" atime ");
    push_number(text, u64::from(attr.atime));
    text.push_str(" ctime ");
    push_number(text, u64::from(attr.ctime));
}

#[tactic(auto, unfolding(crate::specs::Texts::space_text))]
fn push_space(text: &mut Text, view: &SpaceView)
    requires { array_string_len text.old ≡ 0 }
    ensures bytes { text.new.bytes ≡ text.old.bytes ++ space_text view.now }
    ensures short { array_string_len text.new ≤ 300 }
{
    text.push_str("ok blocks ");
    push_number(text, u64::from(view.blocks));
    text.push_str(" user ");
    push_number(text, u64::from(view.user));
    text.push_str(" free ");
    push_number(text, view.free);
    text.push_str(" inodes ");
    push_number(text, u64::from(view.inodes));
    text.push_str(" free ");
    push_number(text, u64::from(view.free_inodes));
    text.push_str(" serial ");
    push_number(text, view.serial);
    text.push_str("\n");
}

fn refusal_word(refusal: Refusal) -> &'static str
    ensures text { result.now ≡ refusal_name refusal }
    ensures short { length result.now ≤ 11 }
{
    match refusal {
        Refusal::NoEntry => "NoEntry",
        Refusal::NotDir => "NotDir",
        Refusal::IsDir => "IsDir",
        Refusal::Exists => "Exists",
        Refusal::NotEmpty => "NotEmpty",
        Refusal::NameTooLong => "NameTooLong",
        Refusal::BadPath => "BadPath",
        Refusal::LinkLoop => "LinkLoop",
        Refusal::WrongKind => "WrongKind",
        Refusal::FileTooBig => "FileTooBig",
        Refusal::NoSpace { .. } => "NoSpace",
        Refusal::NoInodes => "NoInodes",
        Refusal::ReadOnly => "ReadOnly",
        Refusal::IntoItself => "IntoItself",
        Refusal::Reserved => "Reserved",
        Refusal::Device => "Device",
        Refusal::NoMemory => "NoMemory",
        Refusal::Held { .. } => "Held",
        Refusal::SerialEnd => "SerialEnd",
        Refusal::NoSession => "NoSession",
        Refusal::BadLine { .. } => "BadLine",
    }
}

fn push_details(text: &mut Text, refusal: Refusal)
    requires { array_string_len text.old ≤ 100 }
    ensures bytes { text.new.bytes ≡ text.old.bytes ++ refusal_details refusal }
    ensures short { array_string_len text.new ≤ array_string_len text.old + 60 }
{
    match refusal {
        Refusal::NoSpace { need, free } => {
            text.push_str(" need ");
            push_number(text, need);
            text.push_str(" free ");
            push_number(text, free);
        }
        Refusal::Held { count } => {
            text.push_str(" ");
            push_number(text, u64::from(count));
        }
        Refusal::BadLine { at } => {
            text.push_str(" ");
            push_number(text, u64::from(at));
        }
        _ => {}
    }
}

#[tactic(auto, unfolding(crate::specs::Texts::refusal_text))]
fn push_refusal(text: &mut Text, refusal: Refusal)
    requires { array_string_len text.old ≡ 0 }
    ensures bytes { text.new.bytes ≡ text.old.bytes ++ refusal_text refusal }
    ensures short { array_string_len text.new ≤ 300 }
{
    text.push_str("error ");
    push_number(text, u64::from(refusal.number()));
    text.push_str(" ");
    text.push_str(refusal_word(refusal));
    push_details(text, refusal);
    text.push_str("\n");
}

#[tactic(auto, unfolding(crate::specs::Texts::notice_text))]
fn push_notice(text: &mut Text, notice: Notice)
    requires { array_string_len text.old + 30 ≤ 512 }
    ensures bytes { text.new.bytes ≡ text.old.bytes ++ notice_text notice }
    ensures short { array_string_len text.new ≤ array_string_len text.old + 30 }
{
    match notice {
        Notice::Snapshot(serial) => {
            text.push_str("snapshot ");
            push_number(text, serial);
            text.push_str("\n");
        }
        Notice::Device => text.push_str("notice device\n"),
        Notice::Memory => text.push_str("notice memory\n"),
    }
}

// The lines of notices behind others.
fn push_notices(text: &mut Text, notices: &[Notice])
    requires room { array_string_len text.old ≤ 300 }
    requires few { length notices.now ≤ 4 }
    ensures { text.new.bytes ≡ text.old.bytes ++ flat_map notice_text notices.now }
{
    for notice in notices {
        push_notice(text, *notice);
    }
}

// The text of a turn that is no list, no bytes and no target.
#[tactic(auto, unfolding(crate::specs::Texts::turn_text))]
fn short_text(turn: &Turn) -> Option<Text>
    ensures some { IfSome result (λ text. (is_short turn.now.reply ≡ true) × (text.bytes ≡ turn_text turn.now)) }
    ensures none { IfNone result (is_short turn.now.reply ≡ false) }
{
    let mut text = Text::new();
    match &turn.reply {
        Reply::Done => text.push_str("ok\n"),
        Reply::Stat(view) => push_stat(&mut text, view),
        Reply::Space(view) => push_space(&mut text, view),
        Reply::Refused(refusal) => push_refusal(&mut text, *refusal),
        Reply::Rows(_) | Reply::Bytes(_) | Reply::Target(_) => return None,
    }
    push_notices(&mut text, turn.notices.items());
    Some(text)
}

/// Puts the text of a turn at the front, and answers its length; not for a list, bytes or a target.
pub fn print_short(turn: &Turn, into: &mut [u8; 512]) -> Option<usize>
    ensures some { IfSome result (λ n. (is_short turn.now.reply ≡ true) × (n ≡ length (turn_text turn.now)) × (take n into.new ≡ turn_text turn.now)) }
    ensures none { IfNone result (is_short turn.now.reply ≡ false) }
    ensures rest { IfSome result (λ n. drop n into.new ≡ drop n into.old) }
    ensures same { IfNone result (into.new ≡ into.old) }
{
    let text = short_text(turn)?;
    let bytes = text.as_str().as_bytes();
    into[..bytes.len()].copy_from_slice(bytes);
    Some(bytes.len())
}
