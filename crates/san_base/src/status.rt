//! How a program ends.

ghost use Rattle.std.specs.Prelude.{◌≡◌};
ghost use Rattle.san_base.specs.Status.{code_of};

/// How a program ended, which its exit status tells.
#[derive(Clone, Copy, Debug, PartialEq, Eq)]
pub enum Status {
    /// The run came to its horizon, and its report was written.
    Done,
    /// The words after the program's name aren't taken; nothing was read.
    Words,
    /// The model isn't accepted.
    Refused,
    /// The model could not be read to its end.
    ReadFault,
    /// The report could not be written whole.
    WriteFault,
    /// The run stopped before its horizon, and its report was written.
    Stopped,
    /// Want of memory.
    NoMemory,
}

impl Status {
    /// The exit status.
    pub fn code(self) -> u8
        ensures { result ≡ code_of self }
    {
        match self {
            Status::Done => 0,
            Status::Words => 2,
            Status::Refused => 3,
            Status::ReadFault => 4,
            Status::WriteFault => 5,
            Status::Stopped => 6,
            Status::NoMemory => 7,
        }
    }
}
