//! What the words of a run ask for.
ghost use Rattle.std.specs.Prelude.{◌≡◌, ◌∷◌, option_map};
ghost use Rattle.qx_top.specs.Words.{asked_in, asked_of, asked_of_three, asked_of_two, texts_of};

use crate::sizes::{VolumeOptions, size_of_word};

/// What may be asked for, of the image at a path.
#[derive(Clone, Copy)]
pub enum Asked<'a> {
    /// A line about its superblocks.
    Supers(&'a str),
    /// The verdict on it.
    Verdict(&'a str),
    /// A volume of these numbers on it.
    Volume(&'a str, VolumeOptions),
}

/// What the words ask for, if they are accepted: `chkqnx6fs IMAGE`, `chkqnx6fs -s IMAGE` and `mkqnx6fs IMAGE SIZE` are.
pub fn asked_of<'a>(words: &'a [String]) -> Option<Asked<'a>>
    ensures { option_map asked_in result ≡ asked_of (texts_of words.now) }
{
    match words {
        [command, image] => asked_of_two(command.as_str(), image.as_str()),
        [command, first, second] => {
            asked_of_three(command.as_str(), first.as_str(), second.as_str())
        }
        _ => None,
    }
}

#[tactic(auto, unfolding(crate::specs::Words::asked_of_two))]
fn asked_of_two<'a>(command: &str, image: &'a str) -> Option<Asked<'a>>
    ensures { option_map asked_in result ≡ asked_of_two command.now image.now }
{
    if command == "chkqnx6fs" {
        return Some(Asked::Verdict(image));
    }
    None
}

#[tactic(auto, unfolding(crate::specs::Words::asked_of_three))]
fn asked_of_three<'a>(command: &str, first: &'a str, second: &'a str) -> Option<Asked<'a>>
    ensures { option_map asked_in result ≡ asked_of_three command.now first.now second.now }
{
    if command == "chkqnx6fs" && first == "-s" {
        return Some(Asked::Supers(second));
    }
    if command == "mkqnx6fs" {
        let size = size_of_word(second)?;
        return Some(Asked::Volume(first, VolumeOptions::of_size(size)));
    }
    None
}
