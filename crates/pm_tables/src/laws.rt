//! Laws of files and tables.
ghost use Rattle.std.specs.Prelude.{◌≡◌, ℕ, List};
ghost use Rattle.pm_values.specs.Table.{Declaration};
ghost use Rattle.pm_tables.specs.Loading.{Answer, CallsFor};

/// Bytes call for one answer of `load`: for one table or for one refusal.
pub fn calls_once()
    ensures some { (decl : Declaration) (bytes : List ℕ) (most : ℕ) → (a : Answer) × CallsFor decl bytes most a }
    ensures one { (decl : Declaration) (bytes : List ℕ) (most : ℕ) (a b : Answer) → CallsFor decl bytes most a → CallsFor decl bytes most b → a ≡ b }
{}
