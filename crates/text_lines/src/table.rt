// A table of the places at which the lines of a text begin.
ghost use Rattle.std.specs.Prelude.{◌≡◌, ℕ, ◌+◌, ◌≤◌, ◌<◌, List, length, drop, true, false, slice_index, nat_le, count_by, IfOk};
ghost use Rattle.std.specs.List.Sorted.{IsNonDecreasing, IsPartitionPoint};
ghost use Rattle.std.specs.Str.{chars, IsCharBoundary};
ghost use Rattle.text_lines.specs.Lines.{content};
ghost use Rattle.text_lines.specs.Positions.{line_starts, offset_of, pos_at};
ghost use Rattle.text_lines.specs.Units.{units, fitting};
ghost use Rattle.text_lines.specs.declared.encoding.Encoding.TheVariants.{Utf8};
ghost use Rattle.text_lines.specs.Walked.{IsPlaceIn};

use crate::chars::ends_with;
use crate::encoding::Encoding;
use crate::pos::Pos;
use crate::seek::bytes_within;
use crate::walk::Place;
use std::alloc::{AllocError, Global};
use std::marker::Model;

/// Where each line of a text begins, in bytes. Contracts see it as the list of these offsets.
#[derive(Debug, Drop)]
pub struct LineTable {
    starts: Vec<u32>,
}

impl Model for LineTable {
    ghost use Rattle.std.specs.Prelude.{ℕ, List};
    ghost use Rattle.text_lines.specs.Starts.{AreStarts};

    ghost Value = { List ℕ };

    ghost view = { λ table. table.starts.items };

    ghost invariant = { λ table. AreStarts table.starts.items };
}

impl LineTable {
    /// The table of a text, made in one walk over it.
    pub fn new(alloc: Global, text: &str) -> Result<LineTable, AllocError>
        requires { length text.now ≤ 4290772992 }
        ensures { IfOk result (λ table. table ≡ line_starts text.now) }
    {
        let mut starts = Vec::new(alloc);
        starts.push(0)?;
        let mut at: u32 = 0;
        let mut rest = text.as_bytes();
        while let Some((byte, behind)) = rest.split_first() {
            rest = behind;
            at += 1;
            if ends_with(*byte, behind) {
                starts.push(at)?;
            }
        }
        Ok(LineTable { starts })
    }

    /// The line of the byte `offset`: how many lines after the first begin at it or in front of it.
    pub fn line(&self, offset: u32) -> u32
        ensures count { result ≡ count_by (λ start. nat_le start offset) (drop 1 self.now) }
        ensures within { result < length self.now }
        ensures begins { slice_index self.now result ≤ offset }
        ensures place { (text : List ℕ) (encoding : Encoding) → self.now ≡ line_starts text → result ≡ (pos_at text offset encoding).line }
    {
        count_up_to(self.starts.split_at(1).1, offset) as u32
    }

    /// The byte of a position in the text that the table is of. A place inside a code point means its front, a character past
    /// the line's end the line's end before its mark, and a line past the last the end of the text. It costs a walk over one
    /// line.
    pub fn offset(&self, text: &str, pos: Pos, encoding: Encoding) -> u32
        requires table { self.now ≡ line_starts text.now }
        requires short { length text.now ≤ 4290772992 }
        ensures value { result ≡ offset_of text.now pos encoding }
        ensures boundary { IsCharBoundary text.now result }
    {
        if pos.line as usize >= self.starts.len() {
            return text.len() as u32;
        }
        let front = self.front(text, pos.line);
        front.at + bytes_within(front.rest, pos.character, encoding)
    }

    /// The position of the byte `offset` of the text that the table is of. An offset inside a code point means the front of
    /// that code point. It costs a search in the table, and a walk over one line.
    pub fn pos(&self, text: &str, offset: u32, encoding: Encoding) -> Pos
        requires table { self.now ≡ line_starts text.now }
        requires short { length text.now ≤ 4290772992 }
        requires within { offset ≤ length text.now }
        ensures { result ≡ pos_at text.now offset encoding }
    {
        let front = self.front(text, self.line(offset));
        let place = front.advance(offset, encoding);
        Pos {
            line: place.line,
            character: place.character,
        }
    }

    /// The front of a line.
    fn front<'a>(&self, text: &'a str, line: u32) -> Place<'a>
        requires table { self.now ≡ line_starts text.now }
        requires short { length text.now ≤ 4290772992 }
        requires line { line < length self.now }
        ensures place { (encoding : Encoding) → IsPlaceIn text.now encoding result }
        ensures at { result.at ≡ slice_index self.now line }
        ensures seeks { (character : ℕ) (encoding : Encoding) → result.at + units Utf8 (fitting encoding character (content (chars result.rest.now))) ≡ offset_of text.now (record { line = line; character = character }) encoding }
    {
        let at = self.starts[line as usize];
        let rest = text.split_at(at as usize).1;
        Place {
            rest,
            at,
            line,
            character: 0,
        }
    }
}

/// How many of some offsets that stand in order are at most `offset`, by halving.
fn count_up_to(starts: &[u32], offset: u32) -> usize
    requires { IsNonDecreasing starts.now }
    ensures within { result ≤ length starts.now }
    ensures point { IsPartitionPoint (λ start. nat_le start offset ≡ true) (λ start. nat_le start offset ≡ false) starts.now result }
{
    starts.partition_point(|start| *start <= offset)
}
