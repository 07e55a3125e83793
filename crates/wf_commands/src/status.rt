//! How the program ends.

ghost use Rattle.std.specs.Prelude.{◌≡◌};
ghost use Rattle.wf_commands.specs.Status.{status_code, status_name, status_offset};

/// How a run of the program ended. A number is an offset in the input.
#[derive(Clone, Copy, Debug, PartialEq, Eq)]
pub enum Status {
    /// The input was read to its end, or to a request that closes.
    Done,
    NoMemory,
    /// The words on the command line aren't a command.
    Usage,
    ReadFault,
    WriteFault,
    /// The bytes from there on aren't an HTTP message that can be read.
    BadFrame(u64),
    /// The input ends inside the message that begins there.
    Cut(u64),
    /// The input is longer than the limits let it be.
    LongInput,
    /// The head or the body that begins there is larger than the limits let it be.
    TooLarge(u64),
    /// The input isn't a valid definition.
    Invalid,
}

impl Status {
    /// The exit status of the program.
    pub fn code(&self) -> u8
        ensures { result ≡ status_code self.now }
    {
        match self {
            Status::Done => 0,
            Status::NoMemory => 1,
            Status::Usage => 2,
            Status::ReadFault => 3,
            Status::WriteFault => 4,
            Status::BadFrame(_) => 7,
            Status::Cut(_) => 8,
            Status::LongInput => 9,
            Status::TooLarge(_) => 10,
            Status::Invalid => 13,
        }
    }

    /// The name that the program prints.
    pub fn name(&self) -> &'static str
        ensures { result.now ≡ status_name self.now }
    {
        match self {
            Status::Done => "Done",
            Status::NoMemory => "NoMemory",
            Status::Usage => "Usage",
            Status::ReadFault => "ReadFault",
            Status::WriteFault => "WriteFault",
            Status::BadFrame(_) => "BadFrame",
            Status::Cut(_) => "Cut",
            Status::LongInput => "LongInput",
            Status::TooLarge(_) => "TooLarge",
            Status::Invalid => "Invalid",
        }
    }

    /// Where in the input it ended, in bytes, where the status tells that.
    pub fn offset(&self) -> Option<u64>
        ensures { result ≡ status_offset self.now }
    {
        match self {
            Status::BadFrame(at) => Some(*at),
            Status::Cut(at) => Some(*at),
            Status::TooLarge(at) => Some(*at),
            _ => None,
        }
    }
}
