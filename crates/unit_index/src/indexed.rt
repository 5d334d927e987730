// What is known of a unit, with an index.
use crate::piece::Piece;
use crate::places::Places;
use indexmap::IndexSet;
use scope_tables::UnitMeaning;
use shared_list::Listing;
use std::marker::Model;
use std::rc::Rc;
use tok_data::FileId;
use uri_paths::Path;

mod looks;

/// What is known of a unit, of which each question on a token or an anchor is answered at a cost that is linear in the number of its pieces. Contracts
/// see what is known.
#[derive(Drop)]
pub(crate) struct Indexed {
    path: Path,
    reads: Listing<Path>,
    // Without its occurrences.
    rest: UnitMeaning,
    // Its occurrences, which other units share.
    pieces: Vec<Rc<Piece>>,
    // The places of entities by their anchors.
    entities: Places,
    // The texts in which it defines or declares something.
    files: IndexSet<FileId>,
}

impl Model for Indexed {
    ghost use Rattle.std.specs.Coded.{codes};
    ghost use Rattle.std.specs.List.{flat_map};
    ghost use Rattle.type_data.specs.contracts.types.CType as types;
    ghost use Rattle.unit_index.specs.Known.{Known};

    ghost Value = { Known };

    ghost coded = { Prim.hlevel (codes, types.the_row.coded) };

    ghost use Rattle.unit_index.specs.Files.{has_file};
    ghost use Rattle.unit_index.specs.Kept.{IsKept};
    ghost use Rattle.unit_index.specs.Pieces.{with_occs};

    ghost view = { λ u. record { path = u.path; reads = u.reads; meaning = with_occs (flat_map (λ p. p.value) u.pieces.items) u.rest } };

    ghost invariant = { λ u. IsKept (with_occs (flat_map (λ p. p.value) u.pieces.items) u.rest) u.entities (has_file u.files) };
}
