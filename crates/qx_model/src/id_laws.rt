//! Laws of ids: they stay apart, what is free and what is held make all, and they can be read as blocks.
ghost use Rattle.std.specs.Prelude.{◌≡◌, ◌<◌, ◌≤◌, ◌⊎◌, ◌+◌, ℕ, List, None, length};
ghost use Rattle.qx_model.specs.declared.turn.Turn.{Turn};
ghost use Rattle.qx_model.specs.declared.turn.VolEvent.{VolEvent};
ghost use Rattle.qx_model.specs.Edits.{Edit};
ghost use Rattle.qx_model.specs.IdReadings.{AreIdsInUse, IsInSnapshots, IsPlaced, IsReading, IsUsed, ReadsPlaced};
ghost use Rattle.qx_model.specs.Ids.{HasIds, HasRoom};
ghost use Rattle.qx_model.specs.Machine.{Machine, Volume, start_of};
ghost use Rattle.qx_model.specs.NamedIds.{AreSameButIds, DifferInIds, ReadAlike};
ghost use Rattle.qx_model.specs.Next.{Faults, MayCome, Next, next_under};
ghost use Rattle.qx_model.specs.RenewedIds.{IsWorkingAfter};
ghost use Rattle.qx_model.specs.Space.{free_count, held_count};
ghost use Rattle.qx_model.specs.MachineTrees.{HasSoundTrees};
ghost use Rattle.qx_model.specs.Tree.{Tree};
ghost use Rattle.qx_model.specs.TreePositions.{Position, positions_of};
ghost use Rattle.qx_model.specs.Whole.{HoldsRecords};

/// From a mount on, and through every turn, each block of each copy has an id of its own, below the next one.
pub fn ids_stay_apart()
    ensures start { (v : Volume) (t : Tree) (serial moment : ℕ) → HasIds (start_of v t serial moment) }
    ensures turn { (s t : Machine) (e : VolEvent) (turn : Turn) → HasIds s → Next s e turn t → HasIds t }
{}

/// Ids are never used again: no turn lowers the next one; an id of a block after a turn was that of a block before it, or it is new; those of snapshots aren't new; and an id that no block has any more none has later.
pub fn ids_are_never_used_again()
    ensures grow { (s t : Machine) (e : VolEvent) (turn : Turn) → Next s e turn t → s.next_id ≤ t.next_id }
    ensures new { (s t : Machine) (e : VolEvent) (turn : Turn) → Next s e turn t → (i : ℕ) → IsUsed t i → IsUsed s i ⊎ (s.next_id ≤ i) }
    ensures snapshots { (s t : Machine) (e : VolEvent) (turn : Turn) → Next s e turn t → (i : ℕ) → IsInSnapshots t i → IsUsed s i }
    ensures gone { (s t : Machine) (e : VolEvent) (turn : Turn) → Next s e turn t → (i : ℕ) → i < s.next_id → ¬ (IsUsed s i) → ¬ (IsUsed t i) }
{}

/// From a mount on whose tree has room, and through every turn, no more blocks are held than there are; so what is free and what is held make all.
pub fn what_is_free_is_what_is_not_held()
    ensures start { (v : Volume) (t : Tree) (serial moment : ℕ) → v.free_without_ids ≡ None → length (positions_of v.blocksize t) ≤ v.user → HasRoom (start_of v t serial moment) }
    ensures turn { (s t : Machine) (e : VolEvent) (turn : Turn) → HasRoom s → Next s e turn t → HasRoom t }
    ensures all { (s : Machine) → HasRoom s → free_count s + held_count s ≡ s.volume.user }
{}

/// What is held is what is in use: as many blocks are held as there are ids of blocks of the working, the durable and the frozen copy, each counted once.
pub fn what_is_held_is_what_is_in_use()
    ensures some { (s : Machine) → (ids : List ℕ) × AreIdsInUse s ids }
    ensures count { (s : Machine) (ids : List ℕ) → AreIdsInUse s ids → length ids ≡ held_count s }
{}

/// After a turn the working copy is as it was; or an operation edited it, and its ids are new exactly at the positions that took a fresh block, touched ones that are new or not private, and are kept at all others.
pub fn the_ids_after_an_edit()
    ensures { (s t : Machine) (e : VolEvent) (turn : Turn) (n : Next s e turn t) → HoldsRecords s.volume.blocksize → HasSoundTrees s → IsWorkingAfter n.faults s e t.working }
{}

/// Machines that differ in the names of their ids alone answer every event alike, whatever fails, and stay so; and the same may fail.
pub fn names_of_ids_are_never_seen()
    ensures turn { (f : Faults) (e : VolEvent) (s t : Machine) → HasIds s → HasIds t → DifferInIds s t → (next_under f t e).turn ≡ (next_under f s e).turn }
    ensures machine { (f : Faults) (e : VolEvent) (s t : Machine) → HasIds s → HasIds t → DifferInIds s t → DifferInIds (next_under f s e).machine (next_under f t e).machine }
    ensures faults { (f : Faults) (e : VolEvent) (s t : Machine) → HasIds s → HasIds t → DifferInIds s t → MayCome f s e → MayCome f t e }
    ensures back { (s t : Machine) → DifferInIds s t → DifferInIds t s }
{}

/// Machines that are the same but for ids, and whose ids are read as the same blocks, differ in the names of ids alone.
pub fn what_is_read_alike_differs_in_names()
    ensures { (s t : Machine) (first second : ℕ → ℕ) → AreSameButIds s t → IsReading s first → IsReading t second → ReadAlike s t first second → DifferInIds s t }
{}

/// Where an edit puts its fresh blocks on blocks that no copy holds, and leaves the others where they are, the ids can be read as the blocks again.
pub fn placed_blocks_can_be_read()
    ensures { (s : Machine) (e : Edit) (block : ℕ → ℕ) (block_at : Position → ℕ) → HasIds s → IsReading s block → IsPlaced s e block block_at → ReadsPlaced s e block block_at }
{}
