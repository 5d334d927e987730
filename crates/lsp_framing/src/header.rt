// The header part of a frame, read as far as its bytes are there.
ghost use Rattle.std.specs.Prelude.{◌≡◌, ◌≤◌, length, take};
ghost use Rattle.lsp_framing.specs.Known.{Known, IsSettled, FoundIn, Reads, end_of, or_long};

use crate::FrameKind;
use crate::lines::{line_ended, with_line};

/// The most bytes of an input in which a header part is looked for.
const LONGEST_HEADER: usize = 4096;

/// What is known of the bytes that stand. Places count from the first of them.
#[derive(Clone, Copy, Debug, PartialEq, Eq)]
pub enum State {
    /// The first `scanned` bytes hold no end of a header part. The line that stands last begins at `line`, and the lines
    /// before it are without fault and state this length.
    Header {
        line: usize,
        scanned: usize,
        stated: Option<u32>,
    },
    /// A header part of `header` bytes, whose content has `length` bytes.
    Content {
        header: usize,
        length: u32,
    },
    /// A fault, for good.
    Faulty {
        at: usize,
        kind: FrameKind,
    },
}

impl State {
    /// Nothing was read.
    pub const START: State = State::Header {
        line: 0,
        scanned: 0,
        stated: None,
    };
}

/// What is known of the bytes that stand once all of them are read.
pub fn read_on(standing: &[u8], state: State) -> State
    requires { Known state standing.now }
    ensures known { Known result standing.now }
    ensures settled { IsSettled result standing.now }
{
    let State::Header {
        line,
        scanned,
        stated,
    } = state
    else {
        return state;
    };
    if standing.len() < LONGEST_HEADER {
        return read_header(standing, line, scanned, stated);
    }
    or_long(read_header(standing.split_at(LONGEST_HEADER).0, line, scanned, stated))
}

/// What was found in a window as long as a header part may be.
fn or_long(found: State) -> State
    ensures { result ≡ or_long found }
{
    match found {
        State::Header { .. } => State::Faulty {
            at: 0,
            kind: FrameKind::HeaderLong,
        },
        _ => found,
    }
}

/// Reads the lines that end in `window`, of which the first `scanned` bytes were read.
fn read_header(window: &[u8], line: usize, scanned: usize, stated: Option<u32>) -> State
    requires scanned { scanned ≤ length window.now }
    requires reads { Reads (take scanned window.now) line stated }
    ensures { FoundIn window.now result }
{
    let mut line = line;
    let mut stated = stated;
    for at in scanned..window.len() {
        let Some(text) = line_ended(&window[line..at], window[at]) else {
            continue;
        };
        if text.is_empty() {
            return ended(stated, at + 1);
        }
        match with_line(stated, text) {
            Ok(next) => {
                stated = next;
                line = at + 1;
            }
            Err(kind) => return State::Faulty { at: line, kind },
        }
    }
    State::Header {
        line,
        scanned: window.len(),
        stated,
    }
}

/// What the empty line gives, once `header` bytes were read.
fn ended(stated: Option<u32>, header: usize) -> State
    ensures { result ≡ end_of stated header }
{
    match stated {
        Some(length) => State::Content { header, length },
        None => State::Faulty {
            at: header,
            kind: FrameKind::NoLength,
        },
    }
}
