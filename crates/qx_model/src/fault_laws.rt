//! Laws of what fails outside: which acts it may stop, and that a turn tells of it.
ghost use Rattle.std.specs.Prelude.{◌≡◌, ◌≢◌, ℕ, List, Option, Err, true, false};
ghost use Rattle.qx_model.specs.declared.operation.Op.{Op};
ghost use Rattle.qx_model.specs.declared.refusal.Refusal.{Refusal};
ghost use Rattle.qx_model.specs.declared.turn.Turn.{Turn};
ghost use Rattle.qx_model.specs.declared.turn.VolEvent.{VolEvent};
ghost use Rattle.qx_model.specs.Edits.{Setting};
ghost use Rattle.qx_model.specs.Faults.{is_fault_reply, tells_of_fault};
ghost use Rattle.qx_model.specs.Machine.{Machine};
ghost use Rattle.qx_model.specs.Next.{Faults, Next, next, next_under, no_faults};
ghost use Rattle.qx_model.specs.Operate.{operate};
ghost use Rattle.qx_model.specs.Paths.{LastLink, inode_at};
ghost use Rattle.qx_model.specs.Tree.{Tree};
ghost use Rattle.qx_model.specs.TreeReads.{calls_outside, operation_start, walk_start};

/// A turn in which something fails outside tells of it, and one in which nothing fails tells of no fault.
pub fn a_turn_tells_of_its_faults()
    ensures some { (f : Faults) (s : Machine) (e : VolEvent) → f ≢ no_faults → tells_of_fault (next_under f s e).turn ≡ true }
    ensures none { (s : Machine) (e : VolEvent) → tells_of_fault (next s e).turn ≡ false }
{}

/// What paths are refused for by themselves they are refused for over every tree, so nothing need be read before.
pub fn paths_are_refused_by_themselves()
    ensures walk { (t : Tree) (base : Option ℕ) (last : LastLink) (path : List ℕ) (r : Refusal) → walk_start base path ≡ Err r → inode_at t base last path ≡ Err r }
    ensures operation { (s : Setting) (t : Tree) (o : Op) (r : Refusal) → operation_start s.base o ≡ Err r → operate s t o ≡ Err r }
{}

/// An act that calls nothing outside is answered by no fault, whatever fails in its turn.
pub fn an_act_that_calls_nothing_never_fails()
    ensures { (s t : Machine) (e : VolEvent) (turn : Turn) → Next s e turn t → calls_outside s e ≡ false → is_fault_reply turn.reply ≡ false }
{}
