ghost use Rattle.std.specs.Prelude.{◌≡◌};
ghost use Rattle.cx_commands.specs.Exit.{exit_number};

/// How the program ends.
#[derive(Clone, Copy, Debug, PartialEq, Eq)]
pub enum Status {
    /// All was read, done and written.
    Done,
    /// A record isn't legal.
    Illegal,
    /// The words are none that the program knows.
    BadWords,
    /// The text is no scenario.
    BadScenario,
    /// The input failed.
    ReadFault,
    /// The output failed.
    WriteFault,
    /// The replay came to a state in which threads are live and none can go on.
    Stuck,
    /// Memory ran out.
    NoMemory,
    /// The scenario is one that runs aren't built for.
    NotBuilt,
}

impl Status {
    /// The exit status of the process. 6 isn't used.
    pub fn number(self) -> u8
        ensures number { result ≡ exit_number self }
    {
        match self {
            Status::Done => 0,
            Status::Illegal => 1,
            Status::BadWords => 2,
            Status::BadScenario => 3,
            Status::ReadFault => 4,
            Status::WriteFault => 5,
            Status::Stuck => 7,
            Status::NoMemory => 8,
            Status::NotBuilt => 9,
        }
    }
}
