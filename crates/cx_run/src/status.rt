ghost use Rattle.std.specs.Prelude.{◌≡◌};
ghost use Rattle.cx_run.specs.Status.{number_of};

/// How a call of the program ends. The program's exit status is its number.
#[derive(Clone, Copy, Debug, PartialEq, Eq)]
pub enum Status {
    /// No condition fails, and the report is written.
    Done,
    /// A condition fails, and the report is written.
    Alarms,
    /// The words are none of the forms.
    Usage,
    /// A file is absent, or its bytes are not in its language.
    Refused,
    /// A fetch from a file failed.
    ReadFailed,
    /// A put failed; a front of the text was written.
    WriteFailed,
    /// A quantity passes its limit.
    Limit,
    /// The allocator refused; nothing was written.
    NoMemory,
}

impl Status {
    /// The number of the status, from 0 in the order of the variants.
    pub fn number(&self) -> u8
        ensures { result ≡ number_of self.now }
    {
        match self {
            Status::Done => 0,
            Status::Alarms => 1,
            Status::Usage => 2,
            Status::Refused => 3,
            Status::ReadFailed => 4,
            Status::WriteFailed => 5,
            Status::Limit => 6,
            Status::NoMemory => 7,
        }
    }
}
