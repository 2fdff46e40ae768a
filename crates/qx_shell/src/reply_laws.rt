//! Laws of what a run puts.
ghost use Rattle.std.specs.Prelude.{◌≡◌, ◌<◌, ◌≤◌, ◌↔◌, ◌⊎◌, ◌-◌, ◌^◌, ℕ, false, List, ◌∷◌, ◌++◌, length, take, None, IsTrue};
ghost use Rattle.std.specs.List.{concat};
ghost use Rattle.qx_outside.specs.Outside.{Outside};
ghost use Rattle.qx_outside.specs.Trail.{History, input, output};
ghost use Rattle.qx_view.specs.Sound.{verdict_of};
ghost use Rattle.qx_words.specs.Lines.{lines_of};
ghost use Rattle.qx_words.specs.Scripts.{output_at};
ghost use Rattle.qx_shell.specs.Allowed.{replied_count};
ghost use Rattle.qx_shell.specs.Ends.{IsFront, limit_text, has_fault};
ghost use Rattle.qx_shell.specs.Headline.{IsMountedRun, RunsShell};
ghost use Rattle.qx_shell.specs.MadeTurns.{texts_of};
ghost use Rattle.qx_shell.specs.Mounts.{How};
ghost use Rattle.qx_shell.specs.Unmounted.{refusal_line};

/// A turn is acknowledged once its text is whole, and not by a part of it. The count is the greatest whose texts stand at the front of the output.
pub fn whole_texts_are_acknowledged()
    ensures part { (whole : List (List ℕ)) (next part : List ℕ) (later : List (List ℕ)) → length part < length next
        → replied_count (whole ++ next ∷ later) (concat whole ++ part) ≡ length whole }
    ensures all { (texts : List (List ℕ)) → replied_count texts (concat texts) ≡ length texts }
    ensures greatest { (texts : List (List ℕ)) (out : List ℕ) (n : ℕ) → n ≤ length texts
        → IsFront (concat (take n texts)) out ↔ (n ≤ replied_count texts out) }
{}

/// A run that ends with status 0 and whose script has a line puts something.
pub fn a_silent_run_is_refused()
    ensures { (how : How) (h : History) → IsMountedRun how h 0 → 0 < length (lines_of (input h)) → 0 < length (output h) }
{}

/// Where no turn tells of a fault, what is put is what the machine's function gives for the script, at the moments that the clock told.
pub fn without_faults_the_output_is_the_machines()
    ensures texts { (how : How) (h : History) (status : ℕ) (r : IsMountedRun how h status) → has_fault r.made ≡ false
        → concat (texts_of r.made) ≡ output_at r.moments r.start (input h) }
    ensures whole { (how : How) (h : History) (r : IsMountedRun how h 0) → has_fault r.made ≡ false
        → output h ≡ output_at r.moments r.start (input h) }
    ensures limit { (how : How) (h : History) (r : IsMountedRun how h 6) → has_fault r.made ≡ false
        → output h ≡ output_at r.moments r.start (input h) ++ limit_text }
{}

/// Where no call fails and the image can be mounted, a run ends with status 0 or 6, or with 5 for want of memory.
pub fn without_faults_a_run_ends_well()
    ensures { (image : List ℕ) (how : How) (status : ℕ) (old new : Outside) → RunsShell image how status old new → IsTrue new.tells
        → refusal_line how (verdict_of new.history.starting) ≡ None
        → old.dev_faults < 2 ^ 64 - 1 → new.dev_faults ≡ old.dev_faults
        → old.con_faults < 2 ^ 64 - 1 → new.con_faults ≡ old.con_faults
        → (status ≡ 0) ⊎ ((status ≡ 6) ⊎ (status ≡ 5)) }
{}
