//! Laws of snapshots: their serials, and where their moves come.
ghost use Rattle.std.specs.Prelude.{◌≡◌, ◌<◌, ◌^◌, ◌⊎◌, ℕ, [], ◌∷◌, Some, None, take, true, false};
ghost use Rattle.qx_model.specs.declared.operation.Op.{Op};
ghost use Rattle.qx_model.specs.declared.refusal.Refusal.TheVariants as refusal;
ghost use Rattle.qx_model.specs.declared.reply.Reply.TheVariants as reply;
ghost use Rattle.qx_model.specs.declared.turn.Act.TheVariants as act;
ghost use Rattle.qx_model.specs.declared.turn.Turn.{Turn};
ghost use Rattle.qx_model.specs.declared.turn.VolEvent.{VolEvent};
ghost use Rattle.qx_model.specs.Decisions.{is_serial_end};
ghost use Rattle.qx_model.specs.Machine.{Machine, Volume, start_of};
ghost use Rattle.qx_model.specs.MoveOrder.{MayMove};
ghost use Rattle.qx_model.specs.Next.{ActFault, Faults, MayCome, MemoryFails, Next, act_result, background_moves, moves_made, plan_under};
ghost use Rattle.qx_model.specs.Plans.{lacks_session};
ghost use Rattle.qx_model.specs.Requests.{changes};
ghost use Rattle.qx_model.specs.Serials.{HasSerials};
ghost use Rattle.qx_model.specs.Snapshots.{Begin, after_moves, is_time_to_begin};
ghost use Rattle.qx_model.specs.Tree.{Tree};

/// From a mount with a serial of 64 bits on, and through every turn, the durable serial has 64 bits, that of a snapshot in progress is the next one and has them too, and where there is something to keep a serial is left for it.
pub fn serials_follow_one_another()
    ensures start { (v : Volume) (t : Tree) (serial moment : ℕ) → serial < 2 ^ 64 → HasSerials (start_of v t serial moment) }
    ensures turn { (s t : Machine) (e : VolEvent) (turn : Turn) → HasSerials s → Next s e turn t → HasSerials t }
{}

/// Once the last serial is spent, an operation that changes is refused for it, whatever fails.
pub fn nothing_changes_at_the_last_serial()
    ensures { (s t : Machine) (e : VolEvent) (turn : Turn) (o : Op) → HasSerials s → Next s e turn t → e.act ≡ act.Op o → lacks_session e ≡ false → changes o ≡ true
        → s.volume.is_read_only ≡ false → is_serial_end s ≡ true → turn.reply ≡ reply.Refused refusal.SerialEnd }
{}

/// A begin comes where no snapshot is in progress, there is something to keep and no session holds, and a step where one is in progress: by itself, in an act and behind it. The end drops the holds first.
pub fn moves_come_where_they_may()
    ensures timed { (s : Machine) (moment : ℕ) → is_time_to_begin s moment ≡ true → MayMove moment s (Begin ∷ []) }
    ensures act { (f : Faults) (s : Machine) (e : VolEvent) → HasSerials s → MayMove e.moment (plan_under f s e).from (moves_made f.act (plan_under f s e)) }
    ensures background { (f : Faults) (s : Machine) (e : VolEvent) → MayCome f s e → MayMove e.moment (act_result f s e).machine (background_moves f.background (act_result f s e)) }
{}

/// Once an act has moved a snapshot, it wants no memory before that snapshot is done.
pub fn an_act_wants_no_memory_halfway()
    ensures { (f : Faults) (s : Machine) (e : VolEvent) (fault : ActFault) → HasSerials s → MayCome f s e → f.act ≡ Some fault → fault.cause ≡ MemoryFails
        → (fault.moves ≡ 0) ⊎ ((after_moves e.moment (plan_under f s e).from (take fault.moves (plan_under f s e).moves)).frozen ≡ None) }
{}
