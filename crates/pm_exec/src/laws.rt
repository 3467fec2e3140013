//! The laws of the definitions, each the contract of a function that does nothing.
ghost use Rattle.std.specs.Prelude.{◌≡◌, true, List, [], ◌∷◌, ◌++◌, map};
ghost use Rattle.pm_plan.specs.Rows.{Db};
ghost use Rattle.pm_plan.specs.Tree.{Tree};
ghost use Rattle.pm_work.specs.Events.{counts, events};
ghost use Rattle.pm_work.specs.Moments.{gauges_of};
ghost use Rattle.pm_work.specs.Fits.{IsSound};
ghost use Rattle.pm_flows.specs.Coming.{Coming, event_of};
ghost use Rattle.pm_flows.specs.Plan.{coming};
ghost use Rattle.pm_exec.specs.Noted.{gauges_with};

/// The events that the iterators of a plan have to come are those of the plan; and what each of them says of the node that reads
/// its row is how the gauges change by it: the count of its own node, and what is settled at the reader, with the greatest
/// multiplicity there.
pub fn notes_change_gauges()
    ensures events { (db : Db) (tree : Tree) → map event_of (coming db tree 1) ≡ events db tree 1 }
    ensures gauges { (db : Db) (tree : Tree) (done left : List Coming) (e : Coming) → IsSound db tree → done ++ e ∷ left ≡ coming db tree 1
        → gauges_of db tree 1 (counts (map event_of (done ++ e ∷ []))) ≡ gauges_with 1 e.taken (gauges_of db tree 1 (counts (map event_of done))) }
{}
