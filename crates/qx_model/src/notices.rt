//! What a turn tells beside its reply.
ghost use Rattle.std.specs.Prelude.{◌≡◌, ◌<◌, ◌≤◌, [], ◌∷◌, ◌++◌, length};

use std::marker::Model;

/// What happened in a turn beside its act.
#[derive(Clone, Copy, Debug, PartialEq, Eq)]
pub enum Notice {
    /// The snapshot with this serial is done.
    Snapshot(u64),
    /// A background step of a snapshot failed with the device.
    Device,
    /// It was time for a snapshot, and none began for want of memory.
    Memory,
}

/// At most four notices, in the order in which they came.
#[derive(Drop)]
pub struct Notices {
    places: [Notice; 4],
    count: usize,
}

impl Model for Notices {
    ghost use Rattle.std.specs.Prelude.{List, ◌≤◌, take};
    ghost use Rattle.qx_model.specs.declared.notices.Notice.{Notice};

    ghost Value = { List Notice };

    ghost view = { λ n. take n.count n.places };

    ghost invariant = { λ n. n.count ≤ 4 };
}

impl Notices {
    /// No notices.
    pub fn new() -> Notices
        ensures { result ≡ [] }
    {
        Notices {
            places: [Notice::Device; 4],
            count: 0,
        }
    }

    /// Adds a notice at the end. It takes no memory.
    pub fn push(&mut self, item: Notice)
        requires { length self.old < 4 }
        ensures { self.new ≡ self.old ++ item ∷ [] }
    {
        self.places[self.count] = item;
        self.count += 1;
    }

    /// The notices.
    pub fn items(&self) -> &[Notice]
        ensures items { result.now ≡ self.now }
        ensures few { length result.now ≤ 4 }
    {
        &self.places[..self.count]
    }
}
