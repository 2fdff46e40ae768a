//! What the program is asked for.
ghost use Rattle.std.specs.Prelude.{◌≤◌, ◌^◌};

use qx_ptree::Change;

/// Which words there are.
pub const USAGE: &str =
    "usage: tree_bench need|prepare|commit LEAVES TIMES, where LEAVES is 1 to 1048576";

/// The bytes of a block.
pub const SIZE: usize = 512;

// The most leaves of a node.
const MOST_LEAVES: u32 = 1 << 20;

/// A call that is counted.
#[derive(Clone, Copy, Debug, PartialEq, Eq)]
pub enum Call {
    /// The need of a change.
    Need,
    /// A change is prepared and given up.
    Prepare,
    /// A change is prepared and committed.
    Commit,
}

impl Call {
    fn read(word: &str) -> Option<Call> {
        match word {
            "need" => Some(Call::Need),
            "prepare" => Some(Call::Prepare),
            "commit" => Some(Call::Commit),
            _ => None,
        }
    }
}

/// A call on a node with so many present leaves, so many times.
#[derive(Clone, Copy, Debug, PartialEq, Eq)]
pub struct Task {
    pub call: Call,
    pub leaves: u32,
    pub times: u32,
    ghost few: { leaves ≤ 2 ^ 20 },
}

impl Task {
    /// The task that the words name, if they name one.
    pub fn read(words: &[String]) -> Option<Task> {
        let [call, leaves, times] = words else {
            return None;
        };
        let call = Call::read(call)?;
        let leaves = leaves.parse().ok()?;
        let times = times.parse().ok()?;
        if leaves == 0 || leaves > MOST_LEAVES {
            return None;
        }
        Some(Task {
            call,
            leaves,
            times,
        })
    }

    /// As many blocks as the node takes, and some more: fewer than an eighth of its leaves stand above them.
    pub fn blocks(self) -> u32 {
        self.leaves + self.leaves / 64 + 8
    }

    /// The change that makes the node of an empty one.
    pub fn whole(self) -> Change {
        range(self.leaves, 0, self.leaves)
    }

    /// The change that is counted: the leaf in the middle is written.
    pub fn one_leaf(self) -> Change {
        range(self.leaves, self.leaves / 2, 1)
    }
}

// A change to so many leaves that writes some of them.
fn range(leaves: u32, first: u32, count: u32) -> Change {
    Change {
        size: u64::from(leaves) * SIZE as u64,
        first: u64::from(first),
        count: u64::from(count),
        also: None,
        gone: None,
    }
}
