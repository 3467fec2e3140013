//! The laws of built plans, each the contract of a function that does nothing.
ghost use Rattle.std.specs.Prelude.{◌≡◌, None, All};
ghost use Rattle.pm_values.specs.Table.{IsRelation};
ghost use Rattle.pm_plan.specs.Rows.{Db, decls_of};
ghost use Rattle.pm_plan.specs.Outputs.{output};
ghost use Rattle.pm_plan.specs.Preorder.{tree_of};
ghost use Rattle.pm_plan.specs.Valid.{IsValid};
ghost use Rattle.pm_work.specs.First.{Sizes, too_wide};
ghost use Rattle.pm_work.specs.Fits.{sizes_of, IsSound, Fits};
ghost use Rattle.pm_query.specs.declared.query.Query.{Query};
ghost use Rattle.pm_query.specs.declared.query.Choice.{Choice};
ghost use Rattle.pm_query.specs.Answer.{answer};
ghost use Rattle.pm_query.specs.Bound.{IsBound};
ghost use Rattle.pm_query.specs.Build.{decls_in, tree_for, plan_for};
ghost use Rattle.pm_answers.specs.Databases.{IsDatabaseOf, MeetsDeclarations, IsNarrow};

/// The rows of the plan that is built for a bound query are the rows that the query asks for, in their order, whatever the
/// sizes of its tables and the choice of joins. So all choices give the same rows.
pub fn rows_are_the_answer()
    ensures rows { (query : Query) (sizes : Sizes) (choice : Choice) (db : Db) → IsBound query → IsDatabaseOf query db
        → output db (tree_for query sizes choice) ≡ answer query db }
    ensures plan { (query : Query) (sizes : Sizes) (choice : Choice) (db : Db) → IsBound query → IsDatabaseOf query db
        → output db (tree_of (plan_for query sizes choice).nodes) ≡ answer query db }
    ensures choices { (query : Query) (sizes : Sizes) (a b : Choice) (db : Db) → IsBound query → IsDatabaseOf query db
        → output db (tree_for query sizes a) ≡ output db (tree_for query sizes b) }
    ensures tables { (query : Query) (db : Db) → decls_of db ≡ decls_in query → All IsRelation db → IsDatabaseOf query db }
{}

/// The plan that is built for a bound query is valid for the query's tables. Over a database that meets their declarations
/// its tree is sound, and the plan fits where its bounds are not too wide.
pub fn plans_are_valid()
    ensures valid { (query : Query) (sizes : Sizes) (choice : Choice) → IsBound query → IsNarrow query
        → IsValid (plan_for query sizes choice) (decls_in query) }
    ensures sound { (query : Query) (sizes : Sizes) (choice : Choice) (db : Db) → IsBound query → IsNarrow query
        → MeetsDeclarations query db → IsSound db (tree_for query sizes choice) }
    ensures fits { (query : Query) (sizes : Sizes) (choice : Choice) (db : Db) → IsBound query → IsNarrow query
        → MeetsDeclarations query db → too_wide (sizes_of db) (tree_for query sizes choice) ≡ None → Fits (plan_for query sizes choice) db }
{}
