// The occurrences that units have in common are kept once.
ghost use Rattle.std.specs.Prelude.{◌≡◌, ◌≤◌, ◌++◌, length, IfOk, IfSome, OnOk};
ghost use Rattle.std.specs.Bool.{Decides};
ghost use Rattle.std.specs.List.{flat_map};
ghost use Rattle.unit_index.specs.Pieces as spec;

use crate::piece::Piece;
use scope_tables::Occ;
use std::alloc::{AllocError, Global};
use std::collections::HashMap;
use std::rc::{Rc, Weak};
use tok_data::{FileId, TokId};

// A piece costs memory of its own, so that no other one begins before so many.
const LEAST: usize = 64;

/// Pieces of the occurrences of units, by the token of the first one: what the unit that was indexed last has there. A piece lasts as long as a unit has it.
#[derive(Drop)]
pub struct Pool {
    pieces: HashMap<TokId, Weak<Piece>>,
}

fn copy(occ: &Occ) -> Result<Occ, AllocError>
    ensures { IfOk result (λ copy. copy ≡ occ.now) }
{
    let tok = occ.tok.copy()?;
    let anchor = occ.anchor.share()?;
    Ok(Occ {
        tok,
        anchor,
        role: occ.role,
    })
}

fn add_copies(out: &mut Vec<Occ>, occs: &[Occ]) -> Result<(), AllocError>
    ensures { OnOk result (out.new.items ≡ out.old.items ++ occs.now) }
{
    let mut rest = occs;
    'occs: while let Some((occ, behind)) = rest.split_first() {
        rest = behind;
        out.push(copy(occ)?)?;
    }
    Ok(())
}

fn copied(alloc: Global, occs: &[Occ]) -> Result<Vec<Occ>, AllocError>
    ensures { IfOk result (λ v. v.items ≡ occs.now) }
{
    let mut out = Vec::with_capacity(alloc, occs.len())?;
    add_copies(&mut out, occs)?;
    Ok(out)
}

/// Copies of the occurrences in pieces, one behind the other.
pub(crate) fn all_copied(alloc: Global, pieces: &[Rc<Piece>]) -> Result<Vec<Occ>, AllocError>
    ensures { IfOk result (λ v. v.items ≡ flat_map (λ p. p.value) pieces.now) }
{
    let mut out = Vec::new(alloc);
    let mut rest = pieces;
    'pieces: while let Some((piece, behind)) = rest.split_first() {
        rest = behind;
        add_copies(&mut out, piece.occs())?;
    }
    Ok(out)
}

fn are_same(occs: &[Occ], others: &[Occ]) -> bool
    ensures { Decides result (occs.now ≡ others.now) }
{
    occs == others
}

// How many occurrences at the front of some stand in a text.
fn run_of(occs: &[Occ], file: &FileId) -> usize
    ensures exact { result ≡ spec.run_of file.now occs.now }
    ensures within { result ≤ length occs.now }
{
    occs.iter().take_while(|occ| occ.tok.file == *file).count()
}

// How many occurrences stand in one piece, behind one of a text.
fn run(occs: &[Occ], file: &FileId) -> usize
    ensures exact { result ≡ spec.run file.now occs.now }
    ensures within { result ≤ length occs.now }
{
    if occs.len() < LEAST {
        return occs.len();
    }
    let (_, behind) = occs.split_at(LEAST);
    LEAST + run_of(behind, file)
}

impl Pool {
    /// None. It takes no memory.
    pub fn new(alloc: Global) -> Pool {
        Pool {
            pieces: HashMap::new(alloc),
        }
    }

    // The piece that begins at a token, where it has these occurrences.
    fn shared(&self, tok: &TokId, occs: &[Occ]) -> Option<Rc<Piece>>
        ensures { IfSome result (λ piece. piece.value ≡ occs.now) }
    {
        let piece = self.pieces.get(tok)?.upgrade()?;
        if are_same(piece.occs(), occs) {
            return Some(piece);
        }
        None
    }

    // Before the map grows, it lets go of the tokens at which no unit has a piece any more.
    fn sweep(&mut self) {
        if self.pieces.len() == self.pieces.capacity() {
            self.pieces.retain(|_, piece| piece.strong_count() > 0);
        }
    }

    fn put(&mut self, tok: &TokId, piece: &Rc<Piece>) -> Result<(), AllocError> {
        self.sweep();
        let tok = tok.copy()?;
        let weak = Rc::downgrade(piece)?;
        self.pieces.insert(tok, weak).map_err(AllocError::from)?;
        Ok(())
    }

    // The piece of these occurrences, of which the first one stands at a token.
    fn piece(&mut self, alloc: Global, tok: &TokId, occs: &[Occ]) -> Result<Rc<Piece>, AllocError>
        ensures { IfOk result (λ piece. piece.value ≡ occs.now) }
    {
        if let Some(piece) = self.shared(tok, occs) {
            return Ok(piece);
        }
        let copy = copied(alloc, occs)?;
        let piece = Rc::new(alloc, Piece::of(alloc, copy)?)?;
        self.put(tok, &piece)?;
        Ok(piece)
    }

    /// Occurrences in pieces, which units share. Its cost is linear in their number. It fails for want of memory alone.
    pub(crate) fn pieces_of(
        &mut self,
        alloc: Global,
        occs: &[Occ],
    ) -> Result<Vec<Rc<Piece>>, AllocError>
        ensures { IfOk result (λ pieces. flat_map (λ p. p.value) pieces.items ≡ occs.now) }
    {
        let mut pieces = Vec::new(alloc);
        let mut rest = occs;
        'runs: while let Some((first, others)) = rest.split_first() {
            let tok = &first.tok;
            let (own, behind) = rest.split_at(1 + run(others, &tok.file));
            let piece = self.piece(alloc, tok, own)?;
            pieces.push(piece)?;
            rest = behind;
        }
        Ok(pieces)
    }
}
