// The statuses of the program.

ghost use Rattle.std.specs.Prelude.{◌≡◌};
ghost use Rattle.app_load.specs.Statuses.{status_number};

/// How a command ends. The program ends with the number of the status.
#[derive(Clone, Copy)]
pub enum Status {
    /// The work was done; no run trapped.
    Done,
    /// The words of the command line are no command.
    BadWords,
    /// Nothing is stored under a name that is read, or too many bytes are.
    Missing,
    /// What is stored under a name could not be read.
    Unread,
    /// A file could not be written.
    Unwritten,
    /// The bytes are no module.
    Malformed,
    /// The module uses floats, or exceeds a limit.
    Unfit,
    /// The module is not valid.
    Invalid,
    /// The module is instrumented already, or the output is too large.
    NoOutput,
    /// The bytes are no script, or a call of the script does not fit the module.
    BadScript,
    /// The memory, the table or a segment of the module is out of range.
    OutOfRange,
    /// The start or a call trapped.
    Trapped,
    /// The run was not over when its steps were used up.
    Unfinished,
    /// Memory ran out.
    NoMemory,
    /// The text of an effect could not be printed.
    Unprinted,
    /// The bytes are no information, or they are the information on another module.
    BadInfo,
    /// The trace is longer than allowed.
    LongTrace,
    /// The bytes are no trace.
    NotTrace,
    /// A name is not the name of a function import.
    NoImport,
    /// The information lacks `begin` or `end`.
    FewGroups,
    /// The events do not nest.
    NotNested,
    /// A piece of a list of functions means no function with a body.
    NoFunction,
}

impl Status {
    /// The number that the program ends with, 0 to 23; no status has the number 1 or 17.
    pub fn number(self) -> u8
        ensures { result ≡ status_number self }
    {
        match self {
            Status::Done => 0,
            Status::BadWords => 2,
            Status::Missing => 3,
            Status::Unread => 4,
            Status::Unwritten => 5,
            Status::Malformed => 6,
            Status::Unfit => 7,
            Status::Invalid => 8,
            Status::NoOutput => 9,
            Status::BadScript => 10,
            Status::OutOfRange => 11,
            Status::Trapped => 12,
            Status::Unfinished => 13,
            Status::NoMemory => 14,
            Status::Unprinted => 15,
            Status::BadInfo => 16,
            Status::LongTrace => 18,
            Status::NotTrace => 19,
            Status::NoImport => 20,
            Status::FewGroups => 21,
            Status::NotNested => 22,
            Status::NoFunction => 23,
        }
    }
}
