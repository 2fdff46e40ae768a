//! Laws of a run on its way: what its loop keeps from turn to turn.
ghost use Rattle.std.specs.Prelude.{◌≡◌, ◌<◌, ℕ, true, false, List, [], ◌∷◌, ◌++◌, length};
ghost use Rattle.qx_outside.specs.Moments.{HasOthers, HoldsThroughout};
ghost use Rattle.qx_outside.specs.Trail.{History, after, gave, others_of, told_moment, took};
ghost use Rattle.qx_model.specs.declared.turn.Act.TheVariants as act;
ghost use Rattle.qx_model.specs.declared.turn.Turn.{Turn};
ghost use Rattle.qx_model.specs.declared.turn.VolEvent.{VolEvent};
ghost use Rattle.qx_model.specs.Findable.{found_in};
ghost use Rattle.qx_model.specs.Machine.{Machine};
ghost use Rattle.qx_model.specs.Next.{Next};
ghost use Rattle.qx_words.specs.Lines.{lines_of};
ghost use Rattle.qx_words.specs.Scripts.{event_by};
ghost use Rattle.qx_words.specs.Texts.{last_text, turn_text};
ghost use Rattle.qx_shell.specs.Allowed.{moments_of};
ghost use Rattle.qx_shell.specs.Cuts.{CutsFindAllowed};
ghost use Rattle.qx_shell.specs.MadeTurns.{AreMade, IsLineTurn, Over, MadeTurn, Open, last_machine, machines_of, texts_of};
ghost use Rattle.qx_shell.specs.Occasions.{OfEnd, OfLine, Occasion, ended_lines_of};
ghost use Rattle.qx_shell.specs.Served.{IsMounting, IsSafeYet, IsServed, IsUnsaid};
ghost use Rattle.qx_shell.specs.Turns.{IsTurnOf};
ghost use Rattle.qx_shell.specs.Unmounted.{first_history};

/// A run stays safe from turn to turn, where each keeps its word to the device: input may be taken, a moment is told, the turn is made, and its text is put.
pub fn turns_keep_a_run_safe()
    ensures mount { (places : List ℕ) (start : Machine) (h : History) → HoldsThroughout (IsMounting places start) (first_history h) h
        → length (moments_of h) ≡ 1 → IsServed places start [] h }
    ensures take { (places : List ℕ) (start : Machine) (made : List MadeTurn) (h : History) (bytes : List ℕ) → IsServed places start made h
        → IsServed places start made (after (took bytes) h) }
    ensures turn { (places : List ℕ) (start : Machine) (made : List MadeTurn) (m : MadeTurn) (moment : ℕ) (h new : History) (e : VolEvent) (told : Turn)
        → IsServed places start made h → IsTurnOf places (after (told_moment moment) h) new (last_machine start made) e told m.machine
        → HasOthers (others_of (after (told_moment moment) h).deeds) new
        → (m.text ≡ [] → found_in m.machine ≡ found_in (last_machine start made)) → IsUnsaid places start made m new }
    ensures put { (places : List ℕ) (start : Machine) (made : List MadeTurn) (m : MadeTurn) (h : History) → IsUnsaid places start made m h
        → IsServed places start (made ++ m ∷ []) (after (gave m.text) h) }
    ensures silent { (places : List ℕ) (start : Machine) (made : List MadeTurn) (m : MadeTurn) (h : History) → IsUnsaid places start made m h
        → m.text ≡ [] → IsServed places start (made ++ m ∷ []) h }

    // Where the console fails, or the script is too long.
    ensures part { (places : List ℕ) (start : Machine) (made : List MadeTurn) (m : MadeTurn) (h : History) (part : List ℕ) → IsUnsaid places start made m h
        → length part < length m.text → IsSafeYet places start (made ++ m ∷ []) (after (gave part) h) }
    ensures more { (places : List ℕ) (start : Machine) (made : List MadeTurn) (h : History) (bytes : List ℕ) → IsServed places start made h
        → IsSafeYet places start made (after (gave bytes) h) }

    // In the end.
    ensures whole { (places : List ℕ) (start : Machine) (made : List MadeTurn) (h : History) → IsSafeYet places start made h
        → HoldsThroughout (CutsFindAllowed places (texts_of made) (machines_of start made)) (first_history h) h }
{}

/// Turns are added at the end, for what is left to be answered, and more of the input may come meanwhile.
pub fn turns_are_added_at_the_end()
    ensures line { (s : Machine) (moments : List ℕ) (moment : ℕ) (occasions : List Occasion) (bytes : List ℕ) (left : List Occasion) (made : List MadeTurn) (m : MadeTurn)
        → AreMade s moments occasions made (Open (OfLine bytes ∷ left)) → IsLineTurn (last_machine s made) moment bytes m.turn false m.machine
        → m.text ≡ turn_text m.turn → AreMade s (moments ++ moment ∷ []) occasions (made ++ m ∷ []) (Open left) }
    ensures quit { (s : Machine) (moments : List ℕ) (moment : ℕ) (occasions : List Occasion) (bytes : List ℕ) (left : List Occasion) (made : List MadeTurn) (m : MadeTurn)
        → AreMade s moments occasions made (Open (OfLine bytes ∷ left)) → IsLineTurn (last_machine s made) moment bytes m.turn true m.machine
        → m.text ≡ turn_text m.turn → AreMade s (moments ++ moment ∷ []) occasions (made ++ m ∷ []) Over }
    ensures end { (s : Machine) (moments : List ℕ) (moment : ℕ) (occasions left : List Occasion) (made : List MadeTurn) (m : MadeTurn)
        → AreMade s moments occasions made (Open (OfEnd ∷ left)) → Next (last_machine s made) (event_by 0 act.End moment) m.turn m.machine
        → m.text ≡ last_text m.turn → AreMade s (moments ++ moment ∷ []) occasions (made ++ m ∷ []) Over }
    ensures left { (s : Machine) (moments : List ℕ) (occasions more left : List Occasion) (made : List MadeTurn)
        → AreMade s moments occasions made (Open left) → AreMade s moments (occasions ++ more) made (Open (left ++ more)) }
    ensures over { (s : Machine) (moments : List ℕ) (occasions more : List Occasion) (made : List MadeTurn)
        → AreMade s moments occasions made Over → AreMade s moments (occasions ++ more) made Over }
{}

/// A newline parts a script: its lines are those before it and those behind it.
pub fn a_newline_parts_a_script()
    ensures lines { (xs ys : List ℕ) → lines_of (xs ++ 10 ∷ ys) ≡ lines_of xs ++ lines_of ys }
    ensures ended { (xs ys : List ℕ) → ended_lines_of (xs ++ 10 ∷ ys) ≡ lines_of xs ++ ended_lines_of ys }
{}
