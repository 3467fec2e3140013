//! Laws of what words and files call for, each the contract of a function that does nothing.
ghost use Rattle.std.specs.Prelude.{◌≡◌, List, ℕ, Result, IfOk};
ghost use Rattle.pm_io.specs.Files.{Held};
ghost use Rattle.pm_run.specs.Pieces.{lasting};
ghost use Rattle.pm_commands.specs.declared.preparing.Prepared.{Prepared};
ghost use Rattle.pm_commands.specs.declared.stop.Stop.{Stop};
ghost use Rattle.pm_commands.specs.Calls.{Calls};
ghost use Rattle.pm_commands.specs.Certified.{IsReady, IsCertified};
ghost use Rattle.pm_commands.specs.Alike.{AreCalls, DifferInProgress, DifferInJoin, DifferInWorkers, Alike, AlikeUnlessWide};

/// Words and the bytes of files call for one answer.
pub fn calls_once()
    ensures some { (words : List (List ℕ)) (held : Held) → (out : Result Prepared Stop) × Calls words held out }
    ensures one { (words : List (List ℕ)) (held : Held) (a b : Result Prepared Stop) → Calls words held a → Calls words held b → a ≡ b }
{}

/// The numbers of each event of what is ready to be written are certified, and the rows of the root's events are those that the query
/// asks for.
pub fn ready_is_certified()
    ensures { (p : Prepared) → IsReady p → IsCertified p }
{}

/// Two calls that differ in `--progress` and `--every` alone have the same plan, header, row and end lines, or the same refusal.
pub fn progress_changes_no_other_line()
    ensures { (words others : List (List ℕ)) (held : Held) (a b : Result Prepared Stop) → AreCalls DifferInProgress words others
        → Calls words held a → Calls others held b → Alike lasting a b }
{}

/// Two calls that differ in `--join` alone have the same header and row lines where neither plan is too wide, or the same refusal.
pub fn joins_change_no_row()
    ensures { (words others : List (List ℕ)) (held : Held) (a b : Result Prepared Stop) → AreCalls DifferInJoin words others
        → Calls words held a → Calls others held b → IfOk a IsReady → IfOk b IsReady → AlikeUnlessWide a b }
{}

/// Two calls that differ in `--workers` alone have the same answer, and so the same text or the same refusal.
pub fn workers_change_nothing()
    ensures { (words others : List (List ℕ)) (held : Held) (a b : Result Prepared Stop) → AreCalls DifferInWorkers words others
        → Calls words held a → Calls others held b → a ≡ b }
{}
