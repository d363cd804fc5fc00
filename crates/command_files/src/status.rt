// How the program ends.
ghost use Rattle.std.specs.Prelude.{◌≡◌};
ghost use Rattle.command_files.specs.Statuses.{number_of};

/// How the program ends, for its caller a number.
#[derive(Clone, Copy, Debug, PartialEq, Eq)]
pub enum Status {
    /// 0: each input was read to its end, every line was answered, all was written.
    Done,
    /// 1: a read of the input, of a line or of a file failed.
    ReadFault,
    /// 2: a write failed.
    WriteFault,
    /// 3: the words are no command.
    NoCommand,
    /// 4: a document, a list or a journal is refused.
    Refused,
    /// 5: the hall was not opened, or a station not seated.
    NotSeated,
    /// 6: out of memory.
    OutOfMemory,
    /// 7: an input gave more than 64 MiB.
    TooMuchInput,
    /// 8: the cut has no list.
    NoList,
    /// 9: a call on the disk failed on which the journal is kept.
    DiskFault,
}

impl Status {
    /// The number that the program ends with.
    pub fn number(self) -> u8
        ensures { result ≡ number_of self }
    {
        match self {
            Status::Done => 0,
            Status::ReadFault => 1,
            Status::WriteFault => 2,
            Status::NoCommand => 3,
            Status::Refused => 4,
            Status::NotSeated => 5,
            Status::OutOfMemory => 6,
            Status::TooMuchInput => 7,
            Status::NoList => 8,
            Status::DiskFault => 9,
        }
    }
}
