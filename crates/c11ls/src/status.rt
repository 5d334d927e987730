// How a call of the server ends.
ghost use Rattle.std.specs.Prelude.{◌≡◌};
ghost use Rattle.c11ls.specs.Codes.{code_of};

use lsp_framing::FrameKind;

/// How serving a client ended.
#[derive(Clone, Copy, Debug, PartialEq, Eq)]
pub enum Status {
    /// `exit` after a `shutdown` that was answered.
    Done,
    /// `exit` without such a `shutdown`, or the input ended between frames.
    Unclean,
    /// The words aren't in the grammar; nothing was read, and nothing was written to the sink.
    Usage,
    /// The frame in turn is faulty, or the input ended inside a frame. The place counts bytes from the start of the
    /// input.
    BadFrame { place: u64, kind: FrameKind },
    ReadFault,
    WriteFault,
    StoreFault,
    NoMemory,
    /// 2^62 bytes were taken.
    LongInput,
}

impl Status {
    /// The exit status of the process.
    pub fn code(&self) -> u8
        ensures { result ≡ code_of self.now }
    {
        match *self {
            Status::Done => 0,
            Status::Unclean => 1,
            Status::Usage => 2,
            Status::BadFrame { .. } => 3,
            Status::ReadFault => 4,
            Status::WriteFault => 5,
            Status::StoreFault => 6,
            Status::NoMemory => 7,
            Status::LongInput => 8,
        }
    }
}
