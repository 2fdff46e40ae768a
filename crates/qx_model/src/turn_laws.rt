//! Laws of turns.
ghost use Rattle.std.specs.Prelude.{◌≡◌, ◌≤◌, ℕ, length, true, false};
ghost use Rattle.qx_model.specs.declared.turn.Turn.{Turn};
ghost use Rattle.qx_model.specs.declared.turn.VolEvent.{VolEvent};
ghost use Rattle.qx_model.specs.Faults.{is_refused, tells_of_fault};
ghost use Rattle.qx_model.specs.Machine.{Machine, Volume, start_of, without_holds};
ghost use Rattle.qx_model.specs.Findable.{IsFoundAmong, IsOnTheWay};
ghost use Rattle.qx_model.specs.Next.{Faults, Next, next, next_under};
ghost use Rattle.qx_model.specs.Plans.{is_end};
ghost use Rattle.qx_model.specs.ReadingMounts.{HasCopiesOf, IsMountedForReading};
ghost use Rattle.qx_model.specs.Rooted.{IsRooted};
ghost use Rattle.qx_model.specs.MachineTrees.{HasRootedTrees};
ghost use Rattle.qx_model.specs.Tree.{Tree};

/// A turn that tells of no fault is the one that the machine's function gives, and that one may always come.
pub fn a_turn_without_faults_is_a_function()
    ensures only { (s t : Machine) (e : VolEvent) (turn : Turn) → Next s e turn t → tells_of_fault turn ≡ false → next s e ≡ record { machine = t; turn = turn } }
    ensures comes { (s : Machine) (e : VolEvent) → Next s e (next s e).turn (next s e).machine }
{}

/// An act that is refused, for a fault too, leaves the working tree and its ids, and all sessions, whatever snapshots were made on the way; but the end drops the holds, however it is answered.
pub fn a_refusal_leaves_tree_and_sessions()
    ensures working { (s t : Machine) (e : VolEvent) (turn : Turn) → Next s e turn t → is_refused turn.reply ≡ true → t.working ≡ s.working }
    ensures sessions { (s t : Machine) (e : VolEvent) (turn : Turn) → Next s e turn t → is_refused turn.reply ≡ true → is_end e.act ≡ false → t.sessions ≡ s.sessions }
    ensures end { (s t : Machine) (e : VolEvent) (turn : Turn) → Next s e turn t → is_end e.act ≡ true → (t.working ≡ s.working) × (t.sessions ≡ (without_holds s).sessions) }
{}

/// Wherever a cut comes in a turn, the trees that it may leave are those of the machine before the turn and of the one after it.
pub fn a_turn_finds_the_trees_of_its_two_states()
    ensures { (f : Faults) (s : Machine) (e : VolEvent) (u : Machine) → IsOnTheWay f s e u → IsFoundAmong u s (next_under f s e).machine }
{}

/// From a mount of a rooted tree on, and through every turn, each tree is rooted, and each session stands in a directory, if anywhere.
pub fn trees_stay_rooted()
    ensures start { (v : Volume) (t : Tree) (serial moment : ℕ) → IsRooted t → HasRootedTrees (start_of v t serial moment) }
    ensures turn { (s t : Machine) (e : VolEvent) (turn : Turn) → HasRootedTrees s → Next s e turn t → HasRootedTrees t }
{}

/// A mount for reading stays one through every turn, whatever is asked and whatever fails, and its trees and ids stay as they were found.
pub fn a_mount_for_reading_changes_no_tree()
    ensures start { (v : Volume) (t : Tree) (serial moment : ℕ) → v.is_read_only ≡ true → IsMountedForReading (start_of v t serial moment) }
    ensures turn { (s t : Machine) (e : VolEvent) (turn : Turn) → IsMountedForReading s → Next s e turn t → IsMountedForReading t }
    ensures copies { (s t : Machine) (e : VolEvent) (turn : Turn) → IsMountedForReading s → Next s e turn t → HasCopiesOf s t }
{}

/// A turn tells at most three things beside its reply, so the four places of its notices suffice.
pub fn a_turn_tells_at_most_three_things()
    ensures { (s t : Machine) (e : VolEvent) (turn : Turn) → Next s e turn t → length turn.notices ≤ 3 }
{}
