// Places in a text.
ghost use Rattle.std.specs.Prelude.{◌≡◌, ℕ, List};
ghost use Rattle.text_lines.specs.Positions.{pos_at, offset_of, IsPlace};
ghost use Rattle.text_lines.specs.declared.encoding.Encoding.{Encoding};

/// A place in a text (LSP 3.17, Position).
#[derive(Clone, Copy, Debug, PartialEq, Eq)]
pub struct Pos {
    /// The line, counted from 0.
    pub line: u32,
    /// The code units in front of the place on its line.
    pub character: u32,
}

/// A law of the definitions, which has nothing to run: the position of the byte of a place is that place, for the end of each
/// line and the front of each code point before the line's end mark.
#[tactic(auto, using(crate::proofs::Places::reads_back))]
pub fn places_read_back()
    ensures { (text : List ℕ) (pos : Pos) (encoding : Encoding) → IsPlace text pos encoding → pos_at text (offset_of text pos encoding) encoding ≡ pos }
{}
