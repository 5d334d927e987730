// A walk over a text, which gives many positions in one pass.
ghost use Rattle.std.specs.Prelude.{◌≡◌, ℕ, ◌+◌, ◌-◌, ◌≤◌, ◌<◌, ◌++◌, ◌∷◌, length};
ghost use Rattle.std.specs.Char.{len_utf8};
ghost use Rattle.std.specs.Str.{chars};
ghost use Rattle.text_lines.specs.Positions.{pos_at};
ghost use Rattle.text_lines.specs.Walked.{IsBounded, IsPlaceIn, Walked, place, pos_from, walked};

use crate::chars::{ends_line, split_first_char};
use crate::encoding::Encoding;
use crate::pos::Pos;
use std::marker::Model;

/// A place in a text, at the front of a code point or at the end.
#[derive(Clone, Copy)]
pub(crate) struct Place<'a> {
    /// What follows the place.
    pub(crate) rest: &'a str,
    /// The bytes in front of it.
    pub(crate) at: u32,
    /// Its line.
    pub(crate) line: u32,
    /// The code units in front of it on its line.
    pub(crate) character: u32,
}

impl<'a> Place<'a> {
    /// The front of a text.
    fn front(text: &'a str) -> Place<'a>
        requires { length text.now ≤ 4290772992 }
        ensures place { (enc : Encoding) → IsPlaceIn text.now enc result }
        ensures at { result.at ≡ 0 }
    {
        Place {
            rest: text,
            at: 0,
            line: 0,
            character: 0,
        }
    }

    /// The place itself, or the front of its text where `offset` is before the place.
    fn or_front(self, text: &'a str, offset: u32) -> Place<'a>
        requires { length text.now ≤ 4290772992 }
        ensures place { (enc : Encoding) → IsPlaceIn text.now enc self.entry → IsPlaceIn text.now enc result }
        ensures ahead { result.at ≤ offset }
    {
        if offset < self.at {
            Place::front(text)
        } else {
            self
        }
    }

    /// The place behind the code point that is next.
    fn past(self, c: char, behind: &'a str, encoding: Encoding) -> Place<'a>
        requires bounded { IsBounded self (self.at + length self.rest.now) }
        requires room { self.at + len_utf8 c + length behind.now ≤ 4290772992 }
        ensures at { result.at ≡ self.entry.at + len_utf8 c }
        ensures rest { result.rest.now ≡ behind.now }
        ensures bounded { IsBounded result (self.entry.at + len_utf8 c + length behind.now) }
        ensures tells { (k : ℕ) → self.entry.at + len_utf8 c ≤ k → walked encoding self.entry.line self.entry.character (k - self.entry.at) (c ∷ chars behind.now) ≡ pos_from encoding result k }
    {
        let at = self.at + c.len_utf8() as u32;
        if ends_line(c, behind) {
            return Place {
                rest: behind,
                at,
                line: self.line + 1,
                character: 0,
            };
        }
        Place {
            rest: behind,
            at,
            line: self.line,
            character: self.character + encoding.units(c),
        }
    }

    /// The last place that isn't behind the byte `offset`: the front of the code point that has it.
    pub(crate) fn advance(self, offset: u32, encoding: Encoding) -> Place<'a>
        requires bounded { IsBounded self (self.at + length self.rest.now) }
        requires ahead { self.at ≤ offset }
        ensures forward { self.entry.at ≤ result.at }
        ensures within { result.at ≤ offset }
        ensures bounded { IsBounded result (self.entry.at + length self.entry.rest.now) }
        ensures here { pos_from encoding self.entry offset ≡ place result.line result.character }
        ensures tells { (k : ℕ) → result.at ≤ k → pos_from encoding self.entry k ≡ pos_from encoding result k }
    {
        let mut place = self;
        while let Some((c, behind)) = split_first_char(place.rest) {
            if c.len_utf8() as u32 > offset - place.at {
                return place;
            }
            place = place.past(c, behind, encoding);
        }
        place
    }
}

/// A walk over a text, for positions that are asked in rising order: all together cost one pass over it.
#[derive(Drop)]
pub struct Walk<'a> {
    text: &'a str,
    encoding: Encoding,
    place: Place<'a>,
}

impl<'a> Model for Walk<'a> {
    ghost use Rattle.text_lines.specs.Walked.{Walked, IsPlaceIn};

    ghost Value = { Walked };

    ghost view = { λ w. record { text = w.text.now; encoding = w.encoding } };

    ghost invariant = { λ w. IsPlaceIn w.text.now w.encoding w.place };
}

impl<'a> Walk<'a> {
    /// A walk that stands at the front of a text.
    pub fn new(text: &'a str, encoding: Encoding) -> Walk<'a>
        requires { length text.now ≤ 4290772992 }
        ensures text { result.text ≡ text.now }
        ensures encoding { result.encoding ≡ encoding }
    {
        Walk {
            text,
            encoding,
            place: Place::front(text),
        }
    }

    /// The position of the byte `offset`. An offset inside a code point means the front of that code point. The walk goes
    /// on from where it stands, and begins again at the front where `offset` is before that.
    pub fn pos(&mut self, offset: u32) -> Pos
        requires { offset ≤ length self.old.text }
        ensures place { result ≡ pos_at self.old.text offset self.old.encoding }
        ensures same { self.new ≡ self.old }
    {
        let from = self.place.or_front(self.text, offset);
        self.place = from.advance(offset, self.encoding);
        Pos {
            line: self.place.line,
            character: self.place.character,
        }
    }
}
