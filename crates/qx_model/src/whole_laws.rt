//! Laws of trees whose parts agree: an operation leaves them so, and what it writes is present.
ghost use Rattle.std.specs.Prelude.{◌≡◌, ℕ, Bool, Ok, length};
ghost use Rattle.qx_geom.specs.Lists.{Distinct};
ghost use Rattle.qx_model.specs.declared.operation.Op.{Op};
ghost use Rattle.qx_model.specs.declared.turn.Turn.{Turn};
ghost use Rattle.qx_model.specs.declared.turn.VolEvent.{VolEvent};
ghost use Rattle.qx_model.specs.Bounds.{IsBounded};
ghost use Rattle.qx_model.specs.Edits.{Edit, Setting, StandsLive};
ghost use Rattle.qx_model.specs.Effects.{Edits};
ghost use Rattle.qx_model.specs.EmptyTree.{empty_tree};
ghost use Rattle.qx_model.specs.Machine.{Machine, Volume, start_of};
ghost use Rattle.qx_model.specs.Next.{Next};
ghost use Rattle.qx_model.specs.Operate.{operate};
ghost use Rattle.qx_model.specs.Rooted.{IsRooted};
ghost use Rattle.qx_model.specs.MachineTrees.{HasSoundTrees, HasVolumePlaces, IsSoundTree};
ghost use Rattle.qx_model.specs.Tree.{Tree};
ghost use Rattle.qx_model.specs.TreePositions.{positions_of};
ghost use Rattle.qx_model.specs.TreeTouch.{WritesPresent};
ghost use Rattle.qx_model.specs.Whole.{AreUsed, AreWhole, HoldsRecords, IsWhole};

/// Each leaf that an operation writes is present afterwards, and each inode's size, present leaves and content agree as before.
pub fn what_an_operation_writes_is_present()
    ensures written { (s : Setting) (t : Tree) (o : Op) (is_removing : Bool) (e : Edit) → HoldsRecords s.blocksize → IsRooted t → AreWhole s.blocksize t → StandsLive s t → operate s t o ≡ Ok (Edits is_removing e)
        → WritesPresent s.blocksize e }
    ensures entries { (s : Setting) (t : Tree) (o : Op) (is_removing : Bool) (e : Edit) → HoldsRecords s.blocksize → IsRooted t → AreWhole s.blocksize t → StandsLive s t → operate s t o ≡ Ok (Edits is_removing e)
        → AreWhole s.blocksize e.tree }
{}

/// An operation leaves a rooted tree whole, and with as many places for inodes as it has.
pub fn an_operation_keeps_the_tree_whole()
    ensures whole { (s : Setting) (t : Tree) (o : Op) (is_removing : Bool) (e : Edit) → HoldsRecords s.blocksize → IsRooted t → IsWhole s.blocksize t → StandsLive s t → operate s t o ≡ Ok (Edits is_removing e) → IsWhole s.blocksize e.tree }
    ensures places { (s : Setting) (t : Tree) (o : Op) (is_removing : Bool) (e : Edit) → IsRooted t → StandsLive s t → operate s t o ≡ Ok (Edits is_removing e) → length e.tree.inodes ≡ length t.inodes }
{}

/// An operation leaves a tree within the format's bounds, if it is rooted and its inodes are whole; the tree of a new volume is within them.
pub fn an_operation_keeps_the_tree_bounded()
    ensures operation { (s : Setting) (t : Tree) (o : Op) (is_removing : Bool) (e : Edit) → IsRooted t → AreWhole s.blocksize t → IsBounded t → StandsLive s t → operate s t o ≡ Ok (Edits is_removing e) → IsBounded e.tree }
    ensures start { (blocksize num_inodes moment : ℕ) → IsBounded (empty_tree blocksize num_inodes moment) }
{}

/// The tree of a new volume is whole.
pub fn the_empty_tree_is_whole()
    ensures { (blocksize num_inodes moment : ℕ) → HoldsRecords blocksize → IsWhole blocksize (empty_tree blocksize num_inodes moment) }
{}

/// From a mount of a tree on that is sound by itself, and through every turn, each tree is so.
pub fn trees_stay_sound()
    ensures start { (v : Volume) (t : Tree) (serial moment : ℕ) → IsSoundTree v.blocksize t → HasSoundTrees (start_of v t serial moment) }
    ensures turn { (s t : Machine) (e : VolEvent) (turn : Turn) → HoldsRecords s.volume.blocksize → HasSoundTrees s → Next s e turn t → HasSoundTrees t }
{}

/// From a mount of a rooted tree on that has as many places for inodes as the volume has inodes, and through every turn, each tree has as many.
pub fn trees_keep_the_inodes_of_the_volume()
    ensures start { (v : Volume) (t : Tree) (serial moment : ℕ) → IsRooted t → length t.inodes ≡ v.inodes → HasVolumePlaces (start_of v t serial moment) }
    ensures turn { (s t : Machine) (e : VolEvent) (turn : Turn) → HasVolumePlaces s → Next s e turn t → HasVolumePlaces t }
{}

/// No position of a whole tree is listed twice, so a copy of it has as many blocks as positions are listed.
pub fn a_whole_tree_has_each_position_once()
    ensures { (blocksize : ℕ) (t : Tree) → IsWhole blocksize t → Distinct (positions_of blocksize t) }
{}

/// An operation leaves each long name with a row that has its number, in a rooted and whole tree; a new volume has no long name.
pub fn an_operation_keeps_long_names_in_use()
    ensures operation { (s : Setting) (t : Tree) (o : Op) (is_removing : Bool) (e : Edit) → HoldsRecords s.blocksize → IsRooted t → IsWhole s.blocksize t → StandsLive s t → AreUsed t → operate s t o ≡ Ok (Edits is_removing e) → AreUsed e.tree }
    ensures start { (blocksize num_inodes moment : ℕ) → AreUsed (empty_tree blocksize num_inodes moment) }
{}
