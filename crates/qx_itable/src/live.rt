//! The places of the live inodes, and the first place without one.
ghost use Rattle.std.specs.Prelude.{◌≡◌, ◌<◌, true, false, IfOk, IfSome, replicate, slice_set};
ghost use Rattle.qx_blockset.specs.Members.{count_of, limit_of};
ghost use Rattle.qx_itable.specs.FirstPlace.{first_absent_in, IsFirstFrom};

use qx_blockset::BlockSet;
use std::alloc::{AllocError, Global};
use std::marker::Model;

/// A set of places below a limit that always knows the first place it lacks.
#[derive(Drop)]
pub struct LiveSet {
    places: BlockSet,
    // The limit where no place is lacking.
    first_absent: u32,
}

impl Model for LiveSet {
    ghost use Rattle.qx_blockset.specs.Members.{Members};

    ghost Value = { Members };

    ghost view = { λ a. a.places };

    ghost use Rattle.qx_itable.specs.LiveView.{KnowsFirst};

    ghost invariant = { KnowsFirst };
}

impl LiveSet {
    /// The empty set of places below `limit`.
    pub fn new(alloc: Global, limit: u32) -> Result<LiveSet, AllocError>
        ensures { IfOk result (λ set. set ≡ replicate limit false) }
    {
        let places = BlockSet::new(alloc, limit)?;
        Ok(LiveSet {
            places,
            first_absent: 0,
        })
    }

    /// A set that is equal, in memory of its own.
    pub fn copied(&self, alloc: Global) -> Result<LiveSet, AllocError>
        ensures { IfOk result (λ set. set ≡ self.now) }
    {
        let mut places = BlockSet::new(alloc, self.places.limit())?;
        places.copy_from(&self.places);
        Ok(LiveSet {
            places,
            first_absent: self.first_absent,
        })
    }

    /// Puts the place into the set.
    pub fn insert(&mut self, place: u32)
        requires { place < limit_of self.old }
        ensures { self.new ≡ slice_set self.old place true }
    {
        self.places.insert(place);
        if place == self.first_absent {
            self.first_absent = next_absent(&self.places, place);
        }
    }

    /// Takes the place out of the set.
    pub fn remove(&mut self, place: u32)
        requires { place < limit_of self.old }
        ensures { self.new ≡ slice_set self.old place false }
    {
        self.places.remove(place);
        self.first_absent = self.first_absent.min(place);
    }

    /// How many places are in the set.
    pub fn count(&self) -> u32
        ensures { result ≡ count_of self.now }
    {
        self.places.count()
    }

    /// The first place that is not in the set.
    pub fn first_absent(&self) -> Option<u32>
        ensures first { result ≡ first_absent_in self.now }
        ensures within { IfSome result (λ place. place < limit_of self.now) }
    {
        if self.first_absent < self.places.limit() {
            Some(self.first_absent)
        } else {
            None
        }
    }
}

// The first place from `from` on that is not in the set, or its limit.
fn next_absent(places: &BlockSet, from: u32) -> u32
    ensures { IsFirstFrom places.now from result }
{
    places.first_absent(from).unwrap_or(places.limit())
}
