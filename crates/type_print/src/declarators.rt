// The text of a declarator, which grows at both ends.
use std::marker::Model;
use type_data::Qual;

mod growing;

/// A piece in front of a declarator: `*` with its qualifiers and, where `true`, a space behind them; or `(`.
#[derive(Clone, Copy, Drop)]
pub(crate) enum Piece {
    Star(Qual, bool),
    Open,
}

/// A declarator. Contracts see its text.
#[derive(Drop)]
pub(crate) struct Declarator {
    // The last one stands first in the text.
    front: Vec<Piece>,
    back: String,
}

impl Model for Declarator {
    ghost use Rattle.std.specs.Prelude.{List, ℕ, ◌++◌, string_bytes};
    ghost use Rattle.type_print.specs.Pieces.{front_text};

    ghost Value = { List ℕ };

    ghost view = { λ d. front_text d.front.items ++ string_bytes d.back };
}
