//! What the words of the command line may ask for.
use pm_query::Choice;
use pm_values::Txt;

/// The first word.
#[derive(Clone, Copy, Debug, PartialEq, Eq)]
pub enum Verb {
    Run,
    Explain,
    Demo,
}

/// The settings of `run`: the files of the schema and of the statement, how many events lie between two progress lines,
/// how sources are joined, whether progress lines are written, and how many workers load a table.
#[derive(Debug, Drop)]
pub struct RunSettings {
    pub schema: Txt,
    pub query: Txt,
    pub every: u64,
    pub join: Choice,
    pub progress: bool,
    pub workers: u64,
}

/// The settings of `explain`: the files of the schema and of the statement, how sources are joined, and how many workers
/// load a table.
#[derive(Debug, Drop)]
pub struct ExplainSettings {
    pub schema: Txt,
    pub query: Txt,
    pub join: Choice,
    pub workers: u64,
}

/// The settings of `demo`: the number of customers, and how many workers load a table.
#[derive(Clone, Copy, Debug)]
pub struct DemoSettings {
    pub size: u64,
    pub workers: u64,
}

/// What the words call for.
#[derive(Debug, Drop)]
pub enum Settings {
    Run(RunSettings),
    Explain(ExplainSettings),
    Demo(DemoSettings),
}

/// Why words give no settings.
#[derive(Clone, Copy, Debug, PartialEq, Eq)]
pub enum WordsBad {
    /// They call for none.
    Usage,
    /// Memory was wanted.
    Memory,
}
