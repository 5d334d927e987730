// The line on the error sink.
ghost use Rattle.std.specs.Prelude.{◌+◌, ◌<◌, ◌^◌, ◌++◌};
ghost use Rattle.c11ls.specs.Codes.{line_of};
ghost use Rattle.c11ls.specs.Lines.{Told};
ghost use Rattle.c11ls.specs.declared.status.Status.TheVariants.{BadFrame};

use crate::status::Status;
use io_edges::{Failed, Sink};
use itoa::Buffer;
use lsp_framing::FrameKind;

const USAGE: &str = "c11ls: usage: c11ls [--include LIST] [--define LIST] [--generate N]\n";

/// Offers all of the text to the sink, then what is left of it, until it took all or failed.
fn write_text<E: Sink>(sink: &mut E, text: &str) -> Result<(), Failed>
    requires { E.faults sink.old + 1 < 2 ^ 64 }
    ensures { Told result text.now (E.written sink.old) (E.written sink.new) (E.faults sink.old) (E.faults sink.new) }
{
    let mut rest = text.as_bytes();
    'pieces: while !rest.is_empty() {
        match sink.write(rest) {
            Ok(count) => rest = rest.split_at(count).1,
            Err(failed) => return Err(failed),
        }
    }
    Ok(())
}

/// Writes two texts, one after the other.
fn write_both<E: Sink>(sink: &mut E, first: &str, second: &str) -> Result<(), Failed>
    requires { E.faults sink.old + 1 < 2 ^ 64 }
    ensures { Told result (first.now ++ second.now) (E.written sink.old) (E.written sink.new) (E.faults sink.old) (E.faults sink.new) }
{
    match write_text(sink, first) {
        Ok(()) => write_text(sink, second),
        Err(failed) => Err(failed),
    }
}

/// The line for a faulty frame.
fn write_bad_frame<E: Sink>(sink: &mut E, place: u64, kind: FrameKind) -> Result<(), Failed>
    requires { E.faults sink.old + 1 < 2 ^ 64 }
    ensures { Told result (line_of (BadFrame place kind)) (E.written sink.old) (E.written sink.new) (E.faults sink.old) (E.faults sink.new) }
{
    let mut buffer = Buffer::new();
    let digits = buffer.format(place);
    match write_both(sink, "c11ls: bad frame at byte ", digits) {
        Ok(()) => {}
        Err(failed) => return Err(failed),
    }
    match write_both(sink, ": ", kind.name()) {
        Ok(()) => {}
        Err(failed) => return Err(failed),
    }
    write_text(sink, "\n")
}

/// Writes the line of a status, where it has one.
pub fn write_line<E: Sink>(sink: &mut E, status: Status) -> Result<(), Failed>
    requires { E.faults sink.old + 1 < 2 ^ 64 }
    ensures { Told result (line_of status) (E.written sink.old) (E.written sink.new) (E.faults sink.old) (E.faults sink.new) }
{
    match status {
        Status::Done => write_text(sink, ""),
        Status::Unclean => write_text(sink, ""),
        Status::Usage => write_text(sink, USAGE),
        Status::BadFrame { place, kind } => write_bad_frame(sink, place, kind),
        Status::ReadFault => write_text(sink, "c11ls: read fault\n"),
        Status::WriteFault => write_text(sink, "c11ls: write fault\n"),
        Status::StoreFault => write_text(sink, "c11ls: store fault\n"),
        Status::NoMemory => write_text(sink, "c11ls: no memory\n"),
        Status::LongInput => write_text(sink, "c11ls: input too long\n"),
    }
}
