// What a unit is made of, and what it says of an anchor.
ghost use Rattle.std.specs.Prelude.{◌≡◌, ℕ, List, [], map, option_map, IfOk, OnOk};
ghost use Rattle.std.specs.List.{find, flat_map, list_any};
ghost use Rattle.unit_index.specs.Codes as coded;
ghost use Rattle.unit_index.specs.Files.{has_file, introduces_in};
ghost use Rattle.unit_index.specs.Groups.{same_file};
ghost use Rattle.unit_index.specs.Pieces.{with_occs};
ghost use Rattle.unit_index.specs.Speaking.{is_named};

use super::Indexed;
use crate::chains::{entity_at, first_named};
use crate::codes::entity_codes;
use crate::files::{add_files, no_files};
use crate::piece::Piece;
use crate::places::Places;
use crate::pool::Pool;
use indexmap::IndexSet;
use scope_tables::{Anchor, Exports, Symbol, UnitEntity, UnitMeaning};
use shared_list::Listing;
use std::alloc::{AllocError, Global};
use std::mem;
use std::rc::Rc;
use tok_data::{FileId, ShownFault};
use uri_paths::Path;

fn entity_places(alloc: Global, entities: &[UnitEntity]) -> Result<Places, AllocError>
    ensures { IfOk result (λ p. p ≡ map coded.by_name entities.now) }
{
    let codes = entity_codes(alloc, entities)?;
    let places = Places::of(alloc, codes)?;
    Ok(places)
}

// Takes the occurrences of a meaning.
fn pieces_of(
    alloc: Global,
    meaning: &mut UnitMeaning,
    pool: &mut Pool,
) -> Result<Vec<Rc<Piece>>, AllocError>
    ensures pieces { IfOk result (λ pieces. flat_map (λ p. p.value) pieces.items ≡ meaning.old.occs) }
    ensures rest { OnOk result (meaning.new ≡ with_occs [] meaning.old) }
{
    let occs = mem::replace(&mut meaning.occs, Listing::from_vec(Vec::new(alloc)));
    let pieces = pool.pieces_of(alloc, occs.as_slice())?;
    Ok(pieces)
}

fn files_in(alloc: Global, pieces: &[Rc<Piece>]) -> Result<IndexSet<FileId>, AllocError>
    ensures { IfOk result (λ files. (f : List ℕ) → has_file files f ≡ list_any (introduces_in f) (flat_map (λ p. p.value) pieces.now)) }
{
    let mut files = no_files(alloc);
    let mut rest = pieces;
    'pieces: while let Some((piece, behind)) = rest.split_first() {
        rest = behind;
        add_files(&mut files, piece.files())?;
    }
    Ok(files)
}

impl Indexed {
    /// A unit at a path, which reads the texts at these paths and has this meaning, whose occurrences go into a pool. Its cost is linear in the number
    /// of occurrences and entities. It fails for want of memory alone.
    pub(crate) fn of(
        alloc: Global,
        path: Path,
        reads: Listing<Path>,
        meaning: UnitMeaning,
        pool: &mut Pool,
    ) -> Result<Indexed, AllocError>
        ensures { IfOk result (λ u. u ≡ record { path = path; reads = reads; meaning = meaning }) }
    {
        let mut rest = meaning;
        let Ok(pieces) = pieces_of(alloc, &mut rest, pool) else {
            drop(rest);
            return Err(AllocError);
        };
        let Ok(files) = files_in(alloc, &pieces) else {
            drop(rest);
            return Err(AllocError);
        };
        let Ok(entities) = entity_places(alloc, rest.entities.as_slice()) else {
            drop(rest);
            return Err(AllocError);
        };
        Ok(Indexed {
            path,
            reads,
            rest,
            pieces,
            entities,
            files,
        })
    }

    /// Its path.
    pub(crate) fn path(&self) -> &Path
        ensures { result.now ≡ self.now.path }
    {
        &self.path
    }

    /// The paths whose texts it reads.
    pub(crate) fn reads(&self) -> &[Path]
        ensures { result.now ≡ self.now.reads }
    {
        self.reads.as_slice()
    }

    /// The faults of its items and its end.
    pub(crate) fn faults(&self) -> &[ShownFault]
        ensures { result.now ≡ self.now.meaning.faults }
    {
        self.rest.faults.as_slice()
    }

    /// What it shows to other units.
    pub(crate) fn exports(&self) -> &Exports
        ensures { result.now ≡ self.now.meaning.exports }
    {
        &self.rest.exports
    }

    /// Its symbols.
    pub(crate) fn symbols(&self) -> &[Symbol]
        ensures { result.now ≡ self.now.meaning.symbols }
    {
        self.rest.symbols.as_slice()
    }

    /// Its occurrences.
    pub(crate) fn pieces(&self) -> &[Rc<Piece>]
        ensures { flat_map (λ p. p.value) result.now ≡ self.now.meaning.occs }
    {
        &self.pieces
    }

    /// The texts in which it defines or declares something, each once.
    pub(crate) fn files(&self) -> &[FileId]
        ensures { (f : List ℕ) → list_any (same_file f) result.now ≡ list_any (introduces_in f) self.now.meaning.occs }
    {
        self.files.as_slice()
    }

    /// The entity with this anchor.
    pub(crate) fn entity(&self, anchor: &Anchor) -> Option<&UnitEntity>
        ensures { option_map (λ e. e.now) result ≡ find (is_named anchor.now) self.now.meaning.entities }
    {
        let entities = self.rest.entities.as_slice();
        match first_named(&self.entities, entities, anchor) {
            Some(place) => entity_at(entities, place),
            None => None,
        }
    }
}
