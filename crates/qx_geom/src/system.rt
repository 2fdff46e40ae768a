//! The two system trees of a half.
ghost use Rattle.std.specs.Prelude.{◌≡◌};
ghost use Rattle.qx_geom.specs.Layout.{tree_of};

/// One of the two trees that stand in each half.
#[derive(Clone, Copy, Debug, PartialEq, Eq)]
pub enum SystemTree {
    Bitmap,
    Inodes,
}

impl SystemTree {
    /// The tree of the bitmap, or the other.
    pub fn of(bitmap: bool) -> SystemTree
        ensures { result ≡ tree_of bitmap }
    {
        if bitmap {
            SystemTree::Bitmap
        } else {
            SystemTree::Inodes
        }
    }
}
