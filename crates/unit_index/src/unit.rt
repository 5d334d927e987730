// A unit with its index.
ghost use Rattle.std.specs.Prelude.{◌≡◌, ℕ, List, option_map, IfOk};
ghost use Rattle.std.specs.List.{find, flat_map, list_any};
ghost use Rattle.unit_index.specs.Files.{introduces_in};
ghost use Rattle.unit_index.specs.Groups.{same_file};
ghost use Rattle.scope_tables.specs.Occurrences.{is_at};
ghost use Rattle.unit_index.specs.Speaking.{is_named};

use crate::indexed::Indexed;
use crate::piece::Piece;
use crate::pool::{Pool, all_copied};
use scope_tables::{Anchor, Exports, Occ, Symbol, UnitEntity, UnitMeaning};
use shared_list::Listing;
use std::alloc::{AllocError, Global};
use std::marker::Model;
use std::rc::Rc;
use tok_data::{FileId, ShownFault, TokId};
use uri_paths::Path;

/// What is known of a unit, of which each question on a token or an anchor is answered at a cost that is linear in the number of its pieces. Contracts see
/// what is known.
#[derive(Drop)]
pub struct IndexedUnit {
    // In a box: it is large, and what holds a unit lets it go at each of its ends.
    inside: Box<Indexed>,
}

impl Model for IndexedUnit {
    ghost use Rattle.std.specs.Coded.{codes};
    ghost use Rattle.type_data.specs.contracts.types.CType as types;
    ghost use Rattle.unit_index.specs.Known.{Known};

    ghost Value = { Known };

    ghost coded = { Prim.hlevel (codes, types.the_row.coded) };

    ghost view = { λ u. u.inside.value };
}

impl IndexedUnit {
    /// A unit at a path, which reads the texts at these paths and has this meaning, whose occurrences it shares with the units that were indexed with the same
    /// pool. Its cost is linear in the number of occurrences and entities. It fails for want of memory alone.
    pub fn of(
        alloc: Global,
        path: Path,
        reads: Listing<Path>,
        meaning: UnitMeaning,
        pool: &mut Pool,
    ) -> Result<IndexedUnit, AllocError>
        ensures { IfOk result (λ u. u ≡ record { path = path; reads = reads; meaning = meaning }) }
    {
        let indexed = Indexed::of(alloc, path, reads, meaning, pool)?;
        let inside = Box::new(alloc, indexed)?;
        Ok(IndexedUnit { inside })
    }

    /// Its path.
    pub fn path(&self) -> &Path
        ensures { result.now ≡ self.now.path }
    {
        self.inside.path()
    }

    /// The paths whose texts it reads.
    pub fn reads(&self) -> &[Path]
        ensures { result.now ≡ self.now.reads }
    {
        self.inside.reads()
    }

    /// The faults of its items and its end.
    pub fn faults(&self) -> &[ShownFault]
        ensures { result.now ≡ self.now.meaning.faults }
    {
        self.inside.faults()
    }

    /// What it shows to other units.
    pub fn exports(&self) -> &Exports
        ensures { result.now ≡ self.now.meaning.exports }
    {
        self.inside.exports()
    }

    /// Its symbols.
    pub(crate) fn symbols(&self) -> &[Symbol]
        ensures { result.now ≡ self.now.meaning.symbols }
    {
        self.inside.symbols()
    }

    /// Its occurrences, each copied: they are kept in pieces that units share. Its cost is linear in their number. It fails for want of memory alone.
    pub fn occs(&self, alloc: Global) -> Result<Vec<Occ>, AllocError>
        ensures { IfOk result (λ occs. occs.items ≡ self.now.meaning.occs) }
    {
        all_copied(alloc, self.pieces())
    }

    /// Its occurrences, in pieces.
    pub(crate) fn pieces(&self) -> &[Rc<Piece>]
        ensures { flat_map (λ p. p.value) result.now ≡ self.now.meaning.occs }
    {
        self.inside.pieces()
    }

    /// The first occurrence of a token that denotes an entity.
    pub(crate) fn first(&self, tok: &TokId) -> Option<&Occ>
        ensures { option_map (λ o. o.now) result ≡ find (is_at tok.now) self.now.meaning.occs }
    {
        let mut rest = self.pieces();
        'pieces: while let Some((piece, behind)) = rest.split_first() {
            rest = behind;
            if let Some(occ) = piece.first(tok) {
                return Some(occ);
            }
        }
        None
    }

    /// The texts in which it defines or declares something, each once.
    pub(crate) fn files(&self) -> &[FileId]
        ensures { (f : List ℕ) → list_any (same_file f) result.now ≡ list_any (introduces_in f) self.now.meaning.occs }
    {
        self.inside.files()
    }

    /// The entity with this anchor.
    pub(crate) fn entity(&self, anchor: &Anchor) -> Option<&UnitEntity>
        ensures { option_map (λ e. e.now) result ≡ find (is_named anchor.now) self.now.meaning.entities }
    {
        self.inside.entity(anchor)
    }
}
