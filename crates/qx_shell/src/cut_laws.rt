//! Laws of what a power cut may leave.
ghost use Rattle.std.specs.Prelude.{◌≡◌, ◌≤◌, ℕ, suc, List, [], ◌∷◌, ◌++◌, length, drop, None, Contains};
ghost use Rattle.std.specs.List.{concat};
ghost use Rattle.qx_geom.specs.declared.area.Which.{Which};
ghost use Rattle.qx_outside.specs.Calls.{IsOfConsole};
ghost use Rattle.qx_outside.specs.Moments.{HoldsThroughout};
ghost use Rattle.qx_outside.specs.Trail.{Deed, History, after, output};
ghost use Rattle.qx_model.specs.declared.reply.Reply.TheVariants as reply;
ghost use Rattle.qx_model.specs.declared.turn.Act.TheVariants as act;
ghost use Rattle.qx_model.specs.declared.turn.Turn.{Turn};
ghost use Rattle.qx_model.specs.Findable.{FoundTree, found_in, found_of};
ghost use Rattle.qx_model.specs.Machine.{Machine};
ghost use Rattle.qx_model.specs.Next.{Next};
ghost use Rattle.qx_view.specs.Sound.{Clean, verdict_of};
ghost use Rattle.qx_words.specs.Scripts.{event_by};
ghost use Rattle.qx_shell.specs.Allowed.{AreOfNeighbours, allowed_trees, begun_count};
ghost use Rattle.qx_shell.specs.Cuts.{CutsFind, CutsFindAllowed, FindsOne, places_in};
ghost use Rattle.qx_shell.specs.Headline.{IsMountedRun};
ghost use Rattle.qx_shell.specs.MadeTurns.{MadeTurn, machines_of, texts_of};
ghost use Rattle.qx_shell.specs.Mounts.{How, IsStart, Writing};
ghost use Rattle.qx_shell.specs.NewestCopies.{IsAllDurable, IsMarked};
ghost use Rattle.qx_shell.specs.Turns.{AreTurns, LeavesCuts, NeighboursAllow};

/// Where each turn finds the trees of its two machines at each moment, and what is done between turns leaves them, a cut at any moment finds a tree of two neighbours. The console and the clock leave what cuts find.
pub fn cuts_find_neighbours()
    ensures turns { (places : List ℕ) (a d : History) (s : Machine) (later : List Machine) → CutsFind places (found_in s) a
        → AreTurns places a s later d → HoldsThroughout (NeighboursAllow places (s ∷ later)) a d }
    ensures console { (places : List ℕ) (h : History) (deed : Deed) → IsOfConsole deed → LeavesCuts places h (after deed h) }
    ensures nothing { (places : List ℕ) (h : History) → LeavesCuts places h h }
    ensures further { (places : List ℕ) (a b c : History) → LeavesCuts places a b → LeavesCuts places b c → LeavesCuts places a c }
{}

/// At each moment of a run the allowed trees are those of one of its machines, or of it and the next.
pub fn allowed_trees_are_of_neighbours()
    ensures { (h : History) (start : Machine) (made : List MadeTurn)
        → AreOfNeighbours (machines_of start made) (allowed_trees (texts_of made) (machines_of start made) h) }
{}

/// A sync that is answered as done leaves all durable that was done before it, and until another turn begins its tree alone is allowed.
pub fn an_answered_sync_leaves_one_tree()
    ensures sync { (s t : Machine) (k moment : ℕ) (turn : Turn) → IsMarked s → Next s (event_by k act.Sync moment) turn t
        → turn.reply ≡ reply.Done → IsAllDurable t }
    ensures fsync { (s t : Machine) (k moment : ℕ) (path : List ℕ) (turn : Turn) → IsMarked s
        → Next s (event_by k (act.Fsync path) moment) turn t → turn.reply ≡ reply.Done → IsAllDurable t }
    ensures one { (h : History) (start : Machine) (before : List MadeTurn) (m : MadeTurn) (later : List MadeTurn)
        → begun_count h ≡ suc (length before) → output h ≡ concat (texts_of before) ++ m.text → m.machine.frozen ≡ None
        → allowed_trees (texts_of (before ++ m ∷ later)) (machines_of start (before ++ m ∷ later)) h ≡ found_of m.machine.durable ∷ [] }

    // The premise holds of each machine of a run.
    ensures mount { (how : How) (img : List ℕ) (moment : ℕ) (s : Machine) → IsStart img moment s how → IsMarked s }
    ensures turns { (how : How) (h : History) (status : ℕ) (r : IsMountedRun how h status) (m : MadeTurn)
        → Contains r.made m → IsMarked m.machine }
{}

/// What a cut leaves can be mounted for writing, each such mount begins with one of the trees that were allowed, and the checker calls it clean.
pub fn what_a_cut_leaves_can_be_mounted()
    ensures mounts { (found : List FoundTree) (img : List ℕ) (moment : ℕ) → FindsOne found img
        → (s : Machine) × IsStart img moment s Writing × Contains found (found_of s.durable) }
    ensures begins { (found : List FoundTree) (img : List ℕ) (moment : ℕ) (s : Machine) → FindsOne found img → IsStart img moment s Writing
        → Contains found (found_of s.durable) }
    ensures clean { (found : List FoundTree) (img : List ℕ) (f : FindsOne found img) → (area : Which) × (verdict_of img ≡ Clean area f.superblock) }
{}

/// What holds at each moment of a run holds of each prefix of its trail.
pub fn cuts_come_at_each_prefix()
    ensures { (h : History) (status : ℕ) (r : IsMountedRun Writing h status) (n : ℕ) → n ≤ length h.deeds
        → CutsFindAllowed (places_in h.starting) (texts_of r.made) (machines_of r.start r.made)
        (record { starting = h.starting; deeds = drop n h.deeds }) }
{}
