//! A worked example of what is written, the contract of a function that does nothing: it is proved by computing.
ghost use Rattle.std.specs.Prelude.{◌≡◌, codes};
ghost use Rattle.pm_plan.specs.Worked.{shop};
ghost use Rattle.pm_run.specs.ExplainText.{explain_text};
ghost use Rattle.pm_run.specs.Worked.{hashed_plan};

/// What is known of a hash join before it runs: the right side is a pipeline of its own, and the scans feed their pipelines.
pub fn explain_worked()
    ensures { explain_text hashed_plan shop
        ≡ codes "N 1 project 2\nN 2 hash 3 5 unique=right\nN 3 filter 4\nN 4 scan ord o\nN 5 scan cust c\nB 1 lo=0 hi=4 pipe=1 driver=no\nB 2 lo=0 hi=4 pipe=1 driver=no\nB 3 lo=0 hi=4 pipe=1 driver=no\nB 4 lo=4 hi=4 pipe=1 driver=yes\nB 5 lo=3 hi=3 pipe=2 driver=yes\nF lo=7 hi=19\n" }
{}
