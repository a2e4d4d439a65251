//! How a call of the server ended.

ghost use Rattle.std.specs.Prelude.{◌≡◌};
ghost use Rattle.script_service.specs.Statuses.{status_number};

/// How a call of the server ended.
#[derive(Clone, Copy, PartialEq, Eq)]
pub enum Status {
    /// The whole output was written.
    Done,
    /// The words are not the program's, and the usage line was written.
    BadWords,
    /// The bytes that were read are no script, and the line of the fault was written.
    BadScript,
    /// The source failed. Nothing was written.
    ReadFault,
    /// The sink failed. Part of the output was written.
    WriteFault,
    /// Memory ran out. Nothing or part of the output was written.
    NoMemory,
}

impl Status {
    /// The number with which the program ends.
    pub fn number(self) -> u8
        ensures { result ≡ status_number self }
    {
        match self {
            Status::Done => 0,
            Status::BadWords => 2,
            Status::BadScript => 3,
            Status::ReadFault => 4,
            Status::WriteFault => 5,
            Status::NoMemory => 6,
        }
    }
}
