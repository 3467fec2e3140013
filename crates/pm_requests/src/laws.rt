//! Laws of what files call for, each the contract of a function that does nothing.
ghost use Rattle.std.specs.Prelude.{◌≡◌, List, ℕ, Result, Ok};
ghost use Rattle.pm_io.specs.Files.{Held};
ghost use Rattle.pm_values.specs.Table.{Declaration};
ghost use Rattle.pm_syntax.specs.declared.tree.Select.{Select};
ghost use Rattle.pm_query.specs.Answer.{answer};
ghost use Rattle.pm_binder.specs.Meaning.{select_rows};
ghost use Rattle.pm_requests.specs.declared.refusal.Refusal.{Refusal};
ghost use Rattle.pm_requests.specs.declared.request.Request.{Request};
ghost use Rattle.pm_requests.specs.Files.{SchemaFile, QueryFile};
ghost use Rattle.pm_requests.specs.Calls.{Calls};

/// The bytes of the files call for one answer: for a request or for one refusal.
pub fn calls_once()
    ensures some { (held : Held) (schema query : List ℕ) → (out : Result Request Refusal) × Calls held schema query out }
    ensures one { (held : Held) (schema query : List ℕ) (a b : Result Request Refusal) → Calls held schema query a → Calls held schema query b → a ≡ b }
{}

/// The rows that the statement of the query's file asks for are the answer of the request that the files call for.
pub fn requests_are_answered()
    ensures { (held : Held) (schema query : List ℕ) (decls : List Declaration) (select : Select) (request : Request)
        → SchemaFile held schema (Ok decls) → QueryFile held query (Ok select) → Calls held schema query (Ok request)
        → select_rows select decls request.db ≡ answer request.query request.db }
{}
