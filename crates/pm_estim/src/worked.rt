//! Worked examples of pipelines and of what progress lines show, each the contract of a function that does nothing: they
//! are proved by computing.
ghost use Rattle.std.specs.Prelude.{◌≡◌, true, false, [], ◌∷◌, None};
ghost use Rattle.pm_plan.specs.Worked.{referring_shop, shop, customers_first};
ghost use Rattle.pm_work.specs.Worked.{hashed, sought_rows, merged_rows, summed, distinct_rows, total_join, padded_join};
ghost use Rattle.pm_estim.specs.Pipelines.{drivers_of, pipes_of};
ghost use Rattle.pm_estim.specs.Estimates.{shown_at};

/// The build side of a hash join is a pipeline of its own, and so is what stands below a sort or a group; scans, sorts
/// and groups feed their pipelines.
pub fn pipelines_worked()
    ensures hash { pipes_of hashed ≡ 1 ∷ 1 ∷ 1 ∷ 1 ∷ 2 ∷ [] }
    ensures hash_drivers { drivers_of hashed ≡ false ∷ false ∷ false ∷ true ∷ true ∷ [] }
    ensures index { pipes_of sought_rows ≡ 1 ∷ 1 ∷ 1 ∷ 1 ∷ 1 ∷ [] }
    ensures index_drivers { drivers_of sought_rows ≡ false ∷ false ∷ false ∷ true ∷ false ∷ [] }
    ensures merge { pipes_of merged_rows ≡ 1 ∷ 1 ∷ 1 ∷ 1 ∷ 1 ∷ [] }
    ensures sorted { pipes_of summed ≡ 1 ∷ 1 ∷ 2 ∷ 3 ∷ [] }
    ensures sorted_drivers { drivers_of summed ≡ false ∷ true ∷ true ∷ true ∷ [] }
    ensures distinct { pipes_of distinct_rows ≡ 1 ∷ 2 ∷ 3 ∷ 3 ∷ [] }
    ensures padded { pipes_of padded_join ≡ 1 ∷ 1 ∷ 1 ∷ 2 ∷ [] }
{}

/// What the first progress line of a join along a reference shows, and that of a left join after five events, safe
/// aside.
pub fn lines_worked()
    ensures total { record (shown_at referring_shop total_join 1) { safe_den = None } ≡ record { work = 1; lo = 12; hi = 12; dne_num = 1; dne_den = 6; safe_den = None } }
    ensures padded { record (shown_at customers_first padded_join 5) { safe_den = None } ≡ record { work = 5; lo = 15; hi = 19; dne_num = 5; dne_den = 7; safe_den = None } }
{}
