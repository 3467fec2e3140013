//! The laws of the bounds, each the contract of a function that does nothing.
ghost use Rattle.std.specs.Prelude.{◌≡◌, ℕ, ◌+◌, ◌-◌, ◌≤◌, Some, min, length, slice_get};
ghost use Rattle.pm_plan.specs.Rows.{Db};
ghost use Rattle.pm_plan.specs.Tree.{Tree, Seek, size, right_number, EachAt};
ghost use Rattle.pm_work.specs.Events.{events, counts};
ghost use Rattle.pm_work.specs.Formulas.{exact, up_to};
ghost use Rattle.pm_work.specs.Moments.{Counts, Gauges, HasGauges, gauge_in, gauges_at, counts_at};
ghost use Rattle.pm_work.specs.Orderly.{Orderly};
ghost use Rattle.pm_work.specs.Work.{whole_work, scanned_rows};
ghost use Rattle.pm_work.specs.First.{Sizes, first_hi, first_seek, first_sum, first_bound, greatest, most_work};
ghost use Rattle.pm_work.specs.Fits.{IsSound, sizes_of};
ghost use Rattle.pm_bounds.specs.Bounds.{hi_by, hi, hi_of_seek, seek_above, bound_of, bound_of_seek, bounds_of, work_done, hi_whole, lo_whole, whole_bound};
ghost use Rattle.pm_bounds.specs.Enclosure.{Encloses, AllEnclosed, IsNext, Narrows, AllNarrow, AllWithinFirst, IsExact, AllExact};
ghost use Rattle.pm_bounds.specs.Capped.{AllUpTo, SizesUpTo, capped_sum, first_bounds};

/// At each operator and at each Seek the count, the lower bound, the number of rows and the upper bound stand in this
/// order; and in all, so do the work done, the lower bound, the whole work and its upper bound.
pub fn bounds_enclose()
    ensures each { (db : Db) (tree : Tree) (K : Counts) (G : Gauges)
        → IsSound db tree → Orderly db tree 1 K → HasGauges db tree 1 K G → AllEnclosed db tree 1 G }
    ensures whole { (db : Db) (tree : Tree) (K : Counts) (G : Gauges)
        → IsSound db tree → Orderly db tree 1 K → HasGauges db tree 1 K G
        → Encloses (work_done tree G) (whole_bound tree G) (whole_work db tree) }
{}

/// The lower bound of the whole work is at least the number of scanned rows.
pub fn scanned_within_lower()
    ensures { (db : Db) (tree : Tree) (K : Counts) (G : Gauges)
        → HasGauges db tree 1 K G → scanned_rows db tree ≤ lo_whole tree G }
{}

/// With one row more at one node no lower bound falls and no upper bound rises, neither at an operator or a Seek nor
/// of the whole work.
pub fn bounds_narrow()
    ensures each { (db : Db) (tree : Tree) (m : ℕ) (K L : Counts) (G H : Gauges)
        → IsNext m K L → IsSound db tree → Orderly db tree 1 K → Orderly db tree 1 L
        → HasGauges db tree 1 K G → HasGauges db tree 1 L H → AllNarrow tree 1 G H }
    ensures whole { (db : Db) (tree : Tree) (m : ℕ) (K L : Counts) (G H : Gauges)
        → IsNext m K L → IsSound db tree → Orderly db tree 1 K → Orderly db tree 1 L
        → HasGauges db tree 1 K G → HasGauges db tree 1 L H → Narrows (whole_bound tree G) (whole_bound tree H) }
{}

/// No upper bound is ever above the first one, which follows from the sizes of the tables alone.
pub fn bounds_within_first()
    ensures each { (db : Db) (tree : Tree) (K : Counts) (G : Gauges)
        → IsSound db tree → Orderly db tree 1 K → HasGauges db tree 1 K G → AllWithinFirst (sizes_of db) tree 1 G }
    ensures whole { (db : Db) (tree : Tree) (K : Counts) (G : Gauges)
        → IsSound db tree → Orderly db tree 1 K → HasGauges db tree 1 K G
        → hi_whole tree G ≤ first_sum (sizes_of db) tree }
{}

/// After all events both bounds of each operator and of each Seek are the number of its rows; those of the whole work
/// and the work done are the whole work.
pub fn bounds_end_exact()
    ensures each { (db : Db) (tree : Tree) (G : Gauges)
        → IsSound db tree → HasGauges db tree 1 (counts (events db tree 1)) G → AllExact db tree 1 G }
    ensures whole { (db : Db) (tree : Tree) (G : Gauges)
        → IsSound db tree → HasGauges db tree 1 (counts (events db tree 1)) G → IsExact (whole_bound tree G) (whole_work db tree) }
    ensures work { (db : Db) (tree : Tree) (G : Gauges)
        → HasGauges db tree 1 (counts (events db tree 1)) G → work_done tree G ≡ whole_work db tree }
{}

/// From one moment of a run to a later one no bound of an operator or a Seek widens.
pub fn moments_narrow()
    ensures { (db : Db) (tree : Tree) (t u : ℕ) → IsSound db tree → t ≤ u → u ≤ whole_work db tree
        → AllNarrow tree 1 (gauge_in (gauges_at db tree t)) (gauge_in (gauges_at db tree u)) }
{}

/// Sums and products that stop at a greatest number give the upper bounds, where those are not above that number; of
/// the first bounds they give the lesser of the bound and that number.
pub fn capped_is_exact()
    ensures bounds { (top : ℕ) (tree : Tree) (n : ℕ) (G : Gauges)
        → 1 ≤ top → AllUpTo top tree n G → hi_by (up_to top) tree n G ≡ hi tree n G }
    ensures seeks { (top : ℕ) (left : Tree) (seek : Seek) (n : ℕ) (G : Gauges)
        → 1 ≤ top → AllUpTo top left (n + 1) G → hi_of_seek left seek n G ≤ top
        → seek_above (up_to top) left seek n G (hi_by (up_to top) left (n + 1) G) ≡ hi_of_seek left seek n G }
    ensures first { (top : ℕ) (sizes : Sizes) (tree : Tree) → 1 ≤ top → SizesUpTo top sizes
        → first_hi (up_to top) sizes tree ≡ min top (first_hi exact sizes tree) }
    ensures first_of_seek { (top : ℕ) (sizes : Sizes) (left : Tree) (seek : Seek) → 1 ≤ top → SizesUpTo top sizes
        → first_seek (up_to top) sizes seek (first_hi (up_to top) sizes left) ≡ min top (first_seek exact sizes seek (first_hi exact sizes left)) }
    ensures first_sum { (top : ℕ) (sizes : Sizes) (tree : Tree) → 1 ≤ top → SizesUpTo top sizes
        → capped_sum top (first_bounds (up_to top) sizes tree) ≡ min top (first_sum sizes tree) }
{}

/// The bounds in preorder are read by the numbers of their nodes, one for each.
pub fn bounds_are_read()
    ensures bounds { (tree : Tree) (G : Gauges)
        → EachAt (λ t m. slice_get (bounds_of tree 1 G) (m - 1) ≡ Some (bound_of t m G))
        (λ left seek m. slice_get (bounds_of tree 1 G) (right_number m left - 1) ≡ Some (bound_of_seek left seek m G)) tree 1 }
    ensures each_node { (tree : Tree) (n : ℕ) (G : Gauges) → length (bounds_of tree n G) ≡ size tree }
{}

/// Where the first bound of a sound tree's work is at most the most work, sums and products that stop at the greatest
/// number give the upper bounds at every orderly vector, and so at every moment of the run, and that of the whole work is
/// at most the most work.
pub fn capped_bounds_are_exact()
    ensures each { (db : Db) (tree : Tree) (K : Counts) (G : Gauges) → IsSound db tree → first_bound (sizes_of db) tree ≤ most_work
        → Orderly db tree 1 K → HasGauges db tree 1 K G
        → EachAt (λ u m. hi_by (up_to greatest) u m G ≡ hi u m G)
        (λ left seek m. seek_above (up_to greatest) left seek m G (hi_by (up_to greatest) left (m + 1) G) ≡ hi_of_seek left seek m G) tree 1 }
    ensures whole { (db : Db) (tree : Tree) (K : Counts) (G : Gauges) → IsSound db tree → first_bound (sizes_of db) tree ≤ most_work
        → Orderly db tree 1 K → HasGauges db tree 1 K G → hi_whole tree G ≤ most_work }
{}
