//! Worked examples of words, each a clause of a function that does nothing.
ghost use Rattle.std.specs.Prelude.{◌≡◌, ◌∷◌, [], Some, None, codes, true, false};
ghost use Rattle.pm_words.specs.Settings.{settings_of};
ghost use Rattle.pm_words.specs.Worked.{run_words, plain_run};

use crate::settings::Settings;
use pm_query::Choice;

/// What some lists of words call for.
pub fn words_worked()
    ensures plain { settings_of (run_words []) ≡ Some plain_run }
    ensures all { settings_of (codes "run" ∷ codes "--workers" ∷ codes "8" ∷ codes "s" ∷ codes "--every=+07" ∷ codes "q" ∷ codes "--join" ∷ codes "merge" ∷ codes "--progress=off" ∷ [])
        ≡ Some (Settings.Run (record { schema = codes "s"; query = codes "q"; every = 7; join = Choice.Merge; progress = false; workers = 8 })) }
    ensures every_most { settings_of (run_words (codes "--every" ∷ codes "18446744073709551615" ∷ []))
        ≡ Some (Settings.Run (record { schema = codes "s"; query = codes "q"; every = 18446744073709551615; join = Choice.Auto; progress = true; workers = 1 })) }
    ensures after_dashes { settings_of (codes "run" ∷ codes "--" ∷ codes "--s" ∷ codes "-q" ∷ [])
        ≡ Some (Settings.Run (record { schema = codes "--s"; query = codes "-q"; every = 1; join = Choice.Auto; progress = true; workers = 1 })) }
    ensures explain { settings_of (codes "explain" ∷ codes "s" ∷ codes "q" ∷ codes "--join=index" ∷ [])
        ≡ Some (Settings.Explain (record { schema = codes "s"; query = codes "q"; join = Choice.Index; workers = 1 })) }
    ensures demo { settings_of (codes "demo" ∷ codes "1000" ∷ []) ≡ Some (Settings.Demo (record { size = 1000; workers = 1 })) }
    ensures no_words { settings_of [] ≡ None }
    ensures unknown_verb { settings_of (codes "walk" ∷ []) ≡ None }
    ensures one_file { settings_of (codes "run" ∷ codes "s" ∷ []) ≡ None }
    ensures three_files { settings_of (run_words (codes "r" ∷ [])) ≡ None }
    ensures every_none { settings_of (run_words (codes "--every" ∷ codes "0" ∷ [])) ≡ None }
    ensures every_past { settings_of (run_words (codes "--every" ∷ codes "18446744073709551616" ∷ [])) ≡ None }
    ensures every_negative { settings_of (run_words (codes "--every" ∷ codes "-1" ∷ [])) ≡ None }
    ensures every_twice { settings_of (run_words (codes "--every" ∷ codes "1" ∷ codes "--every" ∷ codes "2" ∷ [])) ≡ None }
    ensures every_bare { settings_of (run_words (codes "--every" ∷ [])) ≡ None }
    ensures workers_past { settings_of (run_words (codes "--workers" ∷ codes "65" ∷ [])) ≡ None }
    ensures join_unknown { settings_of (run_words (codes "--join" ∷ codes "Hash" ∷ [])) ≡ None }
    ensures explain_every { settings_of (codes "explain" ∷ codes "s" ∷ codes "q" ∷ codes "--every" ∷ codes "1" ∷ []) ≡ None }
    ensures help { settings_of (codes "run" ∷ codes "--help" ∷ []) ≡ None }
    ensures demo_none { settings_of (codes "demo" ∷ codes "0" ∷ []) ≡ None }
    ensures demo_past { settings_of (codes "demo" ∷ codes "100001" ∷ []) ≡ None }
{}
