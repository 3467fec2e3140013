//! The laws of the definitions, each the contract of a function that does nothing.
ghost use Rattle.std.specs.Prelude.{◌≡◌, ℕ, ◌≤◌, true, List, [], ◌∷◌, ◌++◌, length, All, Option};
ghost use Rattle.pm_values.specs.Table.{IsRelation};
ghost use Rattle.pm_values.specs.declared.condition.Cond.{Cond};
ghost use Rattle.pm_plan.specs.Rows.{Db, decls_of};
ghost use Rattle.pm_plan.specs.Tree.{Method, On, Seek, Tree, Join, Index, size, right_number, Each, EachAt, sum_at};
ghost use Rattle.pm_plan.specs.Outputs.{output, sought};
ghost use Rattle.pm_plan.specs.Unique.{unique_on};
ghost use Rattle.pm_work.specs.Events.{Event, events, rows_at, counts};
ghost use Rattle.pm_work.specs.Work.{whole_work};
ghost use Rattle.pm_work.specs.Moments.{Counts, gauge_of, seek_gauge, HasGauges, gauges_of, gauge_in, counts_at};
ghost use Rattle.pm_work.specs.Changes.{gauge_after, seek_gauge_after, numbers_read, numbers_sought, AgreeAt};
ghost use Rattle.pm_work.specs.Orderly.{Orderly};
ghost use Rattle.pm_work.specs.Facts.{KeysDiffer, AtMostOne, AllFlagsHold, MergesAscend};
ghost use Rattle.pm_work.specs.Fits.{IsSound, sizes_of};
ghost use Rattle.pm_work.specs.Formulas.{exact};
ghost use Rattle.pm_work.specs.First.{first_hi, first_seek};

/// The events number the whole work; and the rows that they give each node, and each Seek, are what it hands out in all,
/// in order.
pub fn events_are_whole()
    ensures work { (db : Db) (tree : Tree) → length (events db tree 1) ≡ whole_work db tree }
    ensures rows { (db : Db) (tree : Tree) → rows_at 1 (events db tree 1) ≡ output db tree }
    ensures rows_of_each { (db : Db) (tree : Tree) → EachAt (λ t n. rows_at n (events db tree 1) ≡ output db t)
        (λ left seek n. rows_at (right_number n left) (events db tree 1) ≡ sought db seek (output db left)) tree 1 }
{}

/// At each moment the counts of all nodes and Seeks add up to the number of the events so far.
pub fn counts_are_events()
    ensures { (db : Db) (tree : Tree) (t : ℕ) → t ≤ whole_work db tree
        → sum_at (λ u n. counts_at db tree t n) (λ left seek n. counts_at db tree t (right_number n left)) tree 1 ≡ t }
{}

/// Where the tables are as they are declared, a tree that is unique on columns hands out no two rows that agree there and
/// hold no NULL there.
pub fn unique_rows()
    ensures differ { (db : Db) (tree : Tree) (columns : List ℕ) → All IsRelation db → unique_on (decls_of db) tree columns ≡ true
        → KeysDiffer columns (output db tree) }
    ensures at_most_one { (db : Db) (tree : Tree) (columns : List ℕ) → All IsRelation db → unique_on (decls_of db) tree columns ≡ true
        → AtMostOne columns (output db tree) }
{}

/// In a sound plan each flag of a join that is set is so of the rows of its sides: no two rows of a side have one key, and
/// each left row of a total join has a match. So a total join has at least as many rows as its
/// left side.
pub fn flags_hold()
    ensures flags { (db : Db) (tree : Tree) → IsSound db tree → AllFlagsHold db tree }
    ensures joined { (db : Db) (method : Method) (on : On) (left right : Tree) → IsSound db (Join method on left right) → on.unique.total ≡ true
        → length (output db left) ≤ length (output db (Join method on left right)) }
    ensures sought { (db : Db) (left : Tree) (seek : Seek) (cond : Option Cond) → IsSound db (Index left seek cond) → seek.on.unique.total ≡ true
        → length (output db left) ≤ length (sought db seek (output db left)) }
{}

/// In a sound plan the keys of both sides of each merge join ascend.
pub fn merges_ascend()
    ensures { (db : Db) (tree : Tree) → IsSound db tree → MergesAscend db tree }
{}

/// In a sound plan the counts of each moment are orderly: after any first part of the events, and so after the first t of
/// them.
pub fn moments_are_orderly()
    ensures any { (db : Db) (tree : Tree) (done left : List Event) → IsSound db tree → done ++ left ≡ events db tree 1
        → Orderly db tree 1 (counts done) }
    ensures first { (db : Db) (tree : Tree) (t : ℕ) → IsSound db tree → Orderly db tree 1 (counts_at db tree t) }
{}

/// In a sound plan no operator hands out more rows than its first bound, which follows from the tables' sizes alone.
pub fn rows_within_first()
    ensures { (db : Db) (tree : Tree) → IsSound db tree → Each (λ t. length (output db t) ≤ first_hi exact (sizes_of db) t)
        (λ left seek. length (sought db seek (output db left)) ≤ first_seek exact (sizes_of db) seek (first_hi exact (sizes_of db) left)) tree }
{}

/// The gauges in preorder are read by the numbers of their nodes, one for each.
pub fn gauges_are_read()
    ensures gauges { (db : Db) (tree : Tree) (K : Counts) → HasGauges db tree 1 K (gauge_in (gauges_of db tree 1 K)) }
    ensures each_node { (db : Db) (tree : Tree) (n : ℕ) (K : Counts) → length (gauges_of db tree n K) ≡ size tree }
{}

/// In a sound plan an event adds one to the count of its own node, and at the node that reads its row it adds what the row
/// settles there, and at a hash join its key to the greatest multiplicity. A row of the left side of an index join settles
/// its matches at the Seek, and a row of the Seek the pair with the last left row at the Index. No other gauge changes: each
/// is made of the counts of its own node and of those that this one reads.
pub fn events_change_gauges()
    ensures after { (db : Db) (tree : Tree) (done : List Event) (e : Event) (left : List Event) → IsSound db tree → done ++ e ∷ left ≡ events db tree 1
        → EachAt (λ t n. gauge_of db t n (counts (done ++ e ∷ [])) ≡ gauge_after db t n (counts done) e)
        (λ u seek n. seek_gauge db u seek n (counts (done ++ e ∷ [])) ≡ seek_gauge_after db u seek n (counts done) e) tree 1 }
    ensures others { (db : Db) (tree : Tree) (n : ℕ) (K L : Counts) → AgreeAt (numbers_read tree n) K L → gauge_of db tree n K ≡ gauge_of db tree n L }
    ensures other_seeks { (db : Db) (left : Tree) (seek : Seek) (n : ℕ) (K L : Counts) → AgreeAt (numbers_sought left n) K L
        → seek_gauge db left seek n K ≡ seek_gauge db left seek n L }
{}
