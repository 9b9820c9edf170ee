//! What the status of the process says.

ghost use Rattle.std.specs.Prelude.{◌≡◌};
ghost use Rattle.gp_cli.specs.Statuses.{status_code};

/// How the program ended.
#[derive(Clone, Copy, PartialEq, Eq)]
pub(crate) enum Status {
    /// The run gave a graph.
    Graph,
    /// The run gave fail.
    Fail,
    /// What was checked is a derivation.
    Derivation,
    /// It is none.
    NoDerivation,
    /// A program was written in its canonical text.
    Formatted,
    /// A script was walked over a run.
    Walked,
    /// The words are no command.
    Words,
    /// The program is refused.
    Program,
    /// The host is refused.
    Host,
    /// As many items were counted as may be, and the run goes on.
    Bound,
    /// A match is faulty.
    Number,
    /// Memory was refused.
    NoMemory,
    /// A file cannot be read.
    Read,
    /// A text cannot be written.
    Write,
    /// The trace or the result is refused.
    Trace,
    /// The script is refused.
    Script,
}

impl Status {
    /// The number that the process ends with.
    pub(crate) fn code(self) -> u8
        ensures { result ≡ status_code self }
    {
        match self {
            Status::Graph => 0,
            Status::Fail => 1,
            Status::Derivation => 0,
            Status::NoDerivation => 1,
            Status::Formatted => 0,
            Status::Walked => 0,
            Status::Words => 2,
            Status::Program => 3,
            Status::Host => 4,
            Status::Bound => 5,
            Status::Number => 6,
            Status::NoMemory => 7,
            Status::Read => 8,
            Status::Write => 9,
            Status::Trace => 10,
            Status::Script => 11,
        }
    }
}
