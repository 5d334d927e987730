// Edits of a text between two positions.
ghost use Rattle.std.specs.Prelude.{◌≡◌, ◌↔◌, ◌<◌, ◌≤◌, length, Err, OnOk, OnErr};
ghost use Rattle.std.specs.List.{replace_range};
ghost use Rattle.std.specs.Str.{IsCharBoundary};
ghost use Rattle.std.specs.String.{string_bytes};
ghost use Rattle.text_lines.specs.Edits.{edited, IsReversed};
ghost use Rattle.text_lines.specs.Positions.{offset_of};

use crate::encoding::Encoding;
use crate::pos::Pos;
use crate::seek::offsets_in;
use std::marker::Model;

/// The most bytes that a text may have after an edit.
const MOST_BYTES: usize = 4_194_304;

/// A new text for a part of a document. Contracts see it as its bytes.
#[derive(Debug, Drop)]
pub struct ChangeText {
    text: String,
}

impl Model for ChangeText {
    ghost use Rattle.std.specs.Prelude.{ℕ, List};
    ghost use Rattle.std.specs.String.{string_bytes};

    ghost Value = { List ℕ };

    ghost view = { λ t. string_bytes t.text };
}

impl ChangeText {
    /// The text that a `String` has.
    pub fn from_string(text: String) -> ChangeText
        ensures { result ≡ string_bytes text }
    {
        ChangeText { text }
    }

    /// The text.
    pub fn as_str(&self) -> &str
        ensures { result.now ≡ self.now }
    {
        self.text.as_str()
    }
}

/// A change of a text (LSP 3.17, TextDocumentContentChangeEvent): the bytes of a range, its start and its end, give way to
/// a new text. With no range the whole text does.
#[derive(Debug, Drop)]
pub struct Change {
    pub range: Option<(Pos, Pos)>,
    pub text: ChangeText,
}

/// Why an edit was refused. The text is unchanged then.
#[derive(Clone, Copy, Debug, PartialEq, Eq)]
pub enum EditError {
    /// The range's end lies before its start, by their offsets.
    Reversed,
    /// The text would have more than 4,194,304 bytes.
    TooLong,
    /// Out of memory.
    NoMemory,
}

/// The bytes of a range's start and of its end, in one walk from the earlier line to the later one.
fn ends_of(text: &str, start: Pos, end: Pos, encoding: Encoding) -> (u32, u32)
    requires { length text.now ≤ 4290772992 }
    ensures start { result.0 ≡ offset_of text.now start encoding }
    ensures end { result.1 ≡ offset_of text.now end encoding }
    ensures start_boundary { IsCharBoundary text.now result.0 }
    ensures end_boundary { IsCharBoundary text.now result.1 }
{
    if start.line <= end.line {
        return offsets_in(text, start, end, encoding);
    }
    let (end, start) = offsets_in(text, end, start, encoding);
    (start, end)
}

/// The bytes that a change replaces: where they start, and where they end.
fn range_of(text: &str, change: &Change, encoding: Encoding) -> (u32, u32)
    requires { length text.now ≤ 4290772992 }
    ensures edited { edited text.now change.now encoding ≡ replace_range text.now result.0 result.1 change.now.text }
    ensures reversed { IsReversed text.now change.now encoding ↔ (result.1 < result.0) }
    ensures start { IsCharBoundary text.now result.0 }
    ensures end { IsCharBoundary text.now result.1 }
{
    match change.range {
        Some((start, end)) => ends_of(text, start, end, encoding),
        None => (0, text.len() as u32),
    }
}

/// Makes a change in a text. It costs one walk up to the range's end, and a copy of what follows it.
pub fn apply(text: &mut String, change: &Change, encoding: Encoding) -> Result<(), EditError>
    requires { length (string_bytes text.old) ≤ 4290772992 }
    ensures ok { OnOk result (string_bytes text.new ≡ edited (string_bytes text.old) change.now encoding) }
    ensures kept { OnErr result (string_bytes text.new ≡ string_bytes text.old) }
    ensures reversed { result ≡ Err EditError.Reversed ↔ IsReversed (string_bytes text.old) change.now encoding }
    ensures too_long { result ≡ Err EditError.TooLong ↔ (¬ IsReversed (string_bytes text.old) change.now encoding) × (4194304 < length (edited (string_bytes text.old) change.now encoding)) }
{
    let (start, end) = range_of(text.as_str(), change, encoding);
    if end < start {
        return Err(EditError::Reversed);
    }
    let (start, end) = (start as usize, end as usize);
    let new = change.text.as_str();
    let kept = text.len() - (end - start);
    if kept > MOST_BYTES || new.len() > MOST_BYTES - kept {
        return Err(EditError::TooLong);
    }
    match text.replace_range(start..end, new) {
        Ok(()) => Ok(()),
        Err(_) => Err(EditError::NoMemory),
    }
}
