//! Laws of how a run ends.
ghost use Rattle.std.specs.Prelude.{◌≡◌, ◌<◌, ℕ, List, [], ◌∷◌, ◌++◌, length, flat_map, codes};
ghost use Rattle.qx_outside.specs.Images.{IsImage};
ghost use Rattle.qx_outside.specs.Trail.{History};
ghost use Rattle.qx_model.specs.declared.reply.Reply.TheVariants as reply;
ghost use Rattle.qx_model.specs.declared.turn.Act.TheVariants as act;
ghost use Rattle.qx_model.specs.declared.turn.Turn.{Turn};
ghost use Rattle.qx_model.specs.Findable.{found_in, found_of};
ghost use Rattle.qx_model.specs.Machine.{Machine, without_holds};
ghost use Rattle.qx_model.specs.Next.{Next, next};
ghost use Rattle.qx_view.specs.FalseSuperblocks.{HasNoFalseSuperblock};
ghost use Rattle.qx_view.specs.Sound.{IsSound};
ghost use Rattle.qx_words.specs.Scripts.{event_by};
ghost use Rattle.qx_words.specs.Texts.{last_text, notice_text, turn_text};
ghost use Rattle.qx_shell.specs.Allowed.{allowed_trees};
ghost use Rattle.qx_shell.specs.Cuts.{places_in};
ghost use Rattle.qx_shell.specs.Ends.{IsStatusOf};
ghost use Rattle.qx_shell.specs.Headline.{IsMountedRun};
ghost use Rattle.qx_shell.specs.MadeTurns.{last_machine, machines_of, texts_of};
ghost use Rattle.qx_shell.specs.Mounts.{How, IsStart, Writing};
ghost use Rattle.qx_shell.specs.NewestCopies.{IsAllDurable, IsMarked};
ghost use Rattle.qx_shell.specs.SmallRuns.{empty_run};

/// The last turn is done, or stopped by the device or for want of memory, and that gives the status. Its text names the fault, if there is one. It alone can be empty, and only where all was durable and nothing but holds changes.
pub fn the_last_text_tells_how_a_run_ends()
    ensures status { (s t : Machine) (k moment : ℕ) (turn : Turn) → Next s (event_by k act.End moment) turn t
        → (status : ℕ) × IsStatusOf turn.reply status }
    ensures done { (turn : Turn) → IsStatusOf turn.reply 0 → last_text turn ≡ flat_map notice_text turn.notices }
    ensures device { (turn : Turn) → IsStatusOf turn.reply 3 → last_text turn ≡ codes "error 16 Device\n" ++ flat_map notice_text turn.notices }
    ensures memory { (turn : Turn) → IsStatusOf turn.reply 5 → last_text turn ≡ codes "error 17 NoMemory\n" ++ flat_map notice_text turn.notices }

    // What its text says of the trees.
    ensures kept { (s t : Machine) (k moment : ℕ) (turn : Turn) → IsMarked s → Next s (event_by k act.End moment) turn t
        → turn.reply ≡ reply.Done → IsAllDurable t }
    ensures others { (turn : Turn) → 0 < length (turn_text turn) }
    ensures silent { (s t : Machine) (k moment : ℕ) (turn : Turn) → IsMarked s → Next s (event_by k act.End moment) turn t
        → last_text turn ≡ [] → IsAllDurable s × (t ≡ without_holds s) }
    ensures trees { (s t : Machine) (k moment : ℕ) (turn : Turn) → IsMarked s → Next s (event_by k act.End moment) turn t
        → last_text turn ≡ [] → found_in t ≡ found_in s }
    ensures nothing { (s : Machine) (k moment : ℕ) → IsAllDurable s
        → next s (event_by k act.End moment) ≡ record { machine = without_holds s; turn = record { reply = reply.Done; notices = [] } } }
{}

/// A run that ends with status 0 leaves all durable that its script did, and wherever power is cut then, exactly that tree is found.
pub fn a_run_that_ends_well_leaves_its_tree()
    ensures durable { (how : How) (h : History) (r : IsMountedRun how h 0) → IsAllDurable (last_machine r.start r.made) }
    ensures one { (how : How) (h : History) (r : IsMountedRun how h 0)
        → allowed_trees (texts_of r.made) (machines_of r.start r.made) h ≡ found_of (last_machine r.start r.made).durable ∷ [] }
    ensures tree { (h : History) (r : IsMountedRun Writing h 0) (img : List ℕ) → IsImage h img
        → HasNoFalseSuperblock (places_in h.starting) h img → IsSound img (last_machine r.start r.made).working.tree }
{}

/// The statement can be met: a run of an empty script from a sound image, with one sync and no write, is a run of the shell with status 0.
pub fn a_run_of_nothing_is_one()
    ensures { (img : List ℕ) (moment last : ℕ) (s : Machine) → IsStart img moment s Writing → IsMountedRun Writing (empty_run img moment last) 0 }
{}
