//! Worked examples, each a clause of a function that does nothing.
ghost use Rattle.std.specs.Prelude.{Ok, Err, codes, [], ◌∷◌};
ghost use Rattle.pm_values.specs.declared.value.Value.TheVariants.{Text};
ghost use Rattle.pm_plan.specs.Worked.{number, customer_decl, order_decl, shop};
ghost use Rattle.pm_query.specs.Worked.{large_orders};
ghost use Rattle.pm_names.specs.declared.fault.BindBad.TheVariants as bad;
ghost use Rattle.pm_binder.specs.Worked.{TextBinds, TextAsksFor, customers_with_amounts, joined_twice, left_joined, totals, hidden_column, counted, swapped};

/// Sources: at most eight; a table that is not there is told before a name that is not; an alias is given or taken.
pub fn sources_worked()
    ensures no_table { TextBinds (codes "SELECT nothing FROM nope") (Err (bad.NoTable 20)) }
    ensures ninth { TextBinds (codes "SELECT id FROM cust c, cust d, cust e, cust f, cust g, cust h, cust i, cust j, cust k") (Err (bad.TooManyTables 79)) }
    ensures given_twice { TextBinds (codes "SELECT a.id FROM cust a, ord a") (Err (bad.DoubleAlias 29)) }
    ensures given_then_taken { TextBinds (codes "SELECT cust.id FROM ord cust, cust") (Err (bad.DoubleAlias 30)) }
{}

/// Names: a column that two sources have; an ON that names a later source; two AS names that are one.
pub fn names_worked()
    ensures two_columns { TextBinds (codes "SELECT id FROM ord o JOIN cust c ON o.cust = c.id") (Err (bad.TwoColumns 7)) }
    ensures later_source { TextBinds (codes "SELECT c.id FROM ord o JOIN cust c ON o.cust = d.id JOIN cust d ON d.id = c.id") (Err (bad.NoColumn 47)) }
    ensures two_given { TextBinds (codes "SELECT id AS x, name AS x FROM cust ORDER BY x") (Err (bad.TwoColumns 45)) }
{}

/// Kinds: a text against a number, a number against one with decimals, a SUM of texts; the kinds of BETWEEN are told before
/// a name behind it, and both of its ends are looked at.
pub fn kinds_worked()
    ensures text_and_number { TextBinds (codes "SELECT id FROM cust WHERE name > 5") (Err (bad.Kinds 31)) }
    ensures scales { TextBinds (codes "SELECT id FROM cust JOIN price ON id = p") (Err (bad.Kinds 37)) }
    ensures summed_text { TextBinds (codes "SELECT SUM(name) FROM cust") (Err (bad.Kinds 7)) }
    ensures before_name { TextBinds (codes "SELECT id FROM cust WHERE id BETWEEN 'a' AND nosuch") (Err (bad.Kinds 29)) }
    ensures second_end { TextBinds (codes "SELECT id FROM ord WHERE amt BETWEEN 1 AND 'x'") (Err (bad.Kinds 29)) }
{}

/// Grouping: a column beside an aggregate, `*`, and HAVING without GROUP BY; with DISTINCT an order that is not selected.
pub fn grouping_worked()
    ensures beside { TextBinds (codes "SELECT name, COUNT(*) FROM cust") (Err (bad.NotGrouped 7)) }
    ensures star { TextBinds (codes "SELECT * FROM ord GROUP BY id") (Err (bad.NotGrouped 7)) }
    ensures having { TextBinds (codes "SELECT id FROM ord HAVING COUNT(*) > 1") (Err (bad.NotGrouped 7)) }
    ensures not_selected { TextBinds (codes "SELECT DISTINCT name FROM cust ORDER BY id") (Err (bad.NotSelected 40)) }
{}

/// Joins: none at all, no equality, and a left join with a condition on its left side alone.
pub fn joins_worked()
    ensures none { TextBinds (codes "SELECT o.id FROM ord o, cust c") (Err (bad.NoJoinKey 24)) }
    ensures unequal { TextBinds (codes "SELECT o.id FROM ord o JOIN cust c ON o.cust < c.id") (Err (bad.NoJoinKey 28)) }
    ensures left_side { TextBinds (codes "SELECT o.id FROM cust c LEFT JOIN ord o ON o.cust = c.id AND c.name = 'Ann'") (Err (bad.LeftOn 34)) }
{}

/// Statements that are bound: AND lists are taken apart at all levels, BETWEEN and IN are one conjunct each; an AS name hides
/// a column in ORDER BY, but not within an aggregate.
pub fn queries_worked()
    ensures joined { TextBinds (codes "SELECT c.name, o.amt FROM ord o JOIN cust c ON o.cust = c.id WHERE o.amt > 5") (Ok (large_orders order_decl customer_decl)) }
    ensures twice { TextBinds (codes "SELECT c.name, o.amt FROM ord o JOIN cust c ON o.cust = c.id AND c.id = o.cust WHERE 1 = 1") (Ok joined_twice) }
    ensures left { TextBinds (codes "SELECT c.name, o.amt FROM cust c LEFT JOIN ord o ON o.cust = c.id AND (o.amt > 5 AND o.amt NOT IN (7, NULL))") (Ok left_joined) }
    ensures grouped { TextBinds (codes "SELECT cust, SUM(amt) AS total FROM ord GROUP BY cust HAVING COUNT(*) > 1 AND SUM(amt) > 5 ORDER BY total DESC, cust") (Ok totals) }
    ensures hidden { TextBinds (codes "SELECT cust AS amt FROM ord GROUP BY cust ORDER BY SUM(amt)") (Ok hidden_column) }
    ensures having_alone { TextBinds (codes "SELECT COUNT(*) FROM ord HAVING COUNT(*) > 1") (Ok counted) }
    ensures given_names { TextBinds (codes "SELECT cust AS amt, amt AS cust FROM ord ORDER BY amt") (Ok swapped) }
{}

/// The rows that statements ask for: of a join and a condition; of a left join, whose ON is tested before NULLs are given, and
/// WHERE after; of groups in the order of an aggregate; of different values; and of BETWEEN and IN.
pub fn rows_worked()
    ensures joined { TextAsksFor (codes "SELECT c.name, o.amt FROM ord o JOIN cust c ON o.cust = c.id WHERE o.amt > 5") shop ((Text (codes "Ann") ∷ number 7 ∷ []) ∷ (Text (codes "Cy") ∷ number 9 ∷ []) ∷ []) }
    ensures left { TextAsksFor (codes "SELECT c.name, o.amt FROM cust c LEFT JOIN ord o ON o.cust = c.id") shop customers_with_amounts }
    ensures unmatched { TextAsksFor (codes "SELECT c.name FROM cust c LEFT JOIN ord o ON o.cust = c.id WHERE o.amt IS NULL") shop ((Text (codes "Bob") ∷ []) ∷ []) }
    ensures grouped { TextAsksFor (codes "SELECT cust, SUM(amt) AS t FROM ord GROUP BY cust ORDER BY t DESC, cust") shop ((number 1 ∷ number 12 ∷ []) ∷ (number 3 ∷ number 9 ∷ []) ∷ (number 9 ∷ number 1 ∷ []) ∷ []) }
    ensures having { TextAsksFor (codes "SELECT MAX(amt) FROM ord HAVING COUNT(*) > 9") shop [] }
    ensures counted { TextAsksFor (codes "SELECT COUNT(*) FROM ord WHERE amt > 50") shop ((number 0 ∷ []) ∷ []) }
    ensures different { TextAsksFor (codes "SELECT DISTINCT cust FROM ord ORDER BY cust DESC") shop ((number 9 ∷ []) ∷ (number 3 ∷ []) ∷ (number 1 ∷ []) ∷ []) }
    ensures ranges { TextAsksFor (codes "SELECT id FROM ord WHERE amt NOT BETWEEN 5 AND 7 AND id NOT IN (12)") shop ((number 13 ∷ []) ∷ []) }
{}
