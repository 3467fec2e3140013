//! Laws of the texts of runs, each the contract of a function that does nothing.
ghost use Rattle.std.specs.Prelude.{◌≡◌, ℕ, Option, None};
ghost use Rattle.pm_plan.specs.declared.plan.Plan.{Plan};
ghost use Rattle.pm_plan.specs.Rows.{Db};
ghost use Rattle.pm_run.specs.Text.{run_text};
ghost use Rattle.pm_run.specs.Pieces.{text_of_pieces, pieces, lasting, answering, output_pieces};

/// Two texts of one plan over one database have the same plan, header, row and end lines, whatever their settings of progress:
/// without its progress lines each is the text with progress off.
pub fn settings_change_progress_alone()
    ensures text { (plan : Plan) (db : Db) (every : Option ℕ) → text_of_pieces (pieces plan db every) ≡ run_text plan db every }
    ensures same { (plan : Plan) (db : Db) (every other : Option ℕ) → lasting (pieces plan db every) ≡ lasting (pieces plan db other) }
    ensures off { (plan : Plan) (db : Db) (every : Option ℕ) → text_of_pieces (lasting (pieces plan db every)) ≡ run_text plan db None }
{}

/// The header and row lines of a text are those of the plan's heads and of its output's rows, in their order.
pub fn texts_have_the_output()
    ensures { (plan : Plan) (db : Db) (every : Option ℕ) → answering (pieces plan db every) ≡ output_pieces plan db }
{}
