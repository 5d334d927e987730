// How the text of a declarator grows.
ghost use Rattle.std.specs.Prelude.{◌≡◌, ◌++◌, string_bytes, IfOk, OnOk};
ghost use Rattle.type_print.specs.Names;
ghost use Rattle.type_print.specs.Pieces;
ghost use Rattle.type_print.specs.Printed as spec;

use super::{Declarator, Piece};
use crate::names::{has_words, push_parted};
use std::alloc::{AllocError, Global};
use type_data::{Extent, Qual};

fn push_piece(out: &mut String, piece: Piece) -> Result<(), AllocError>
    ensures { OnOk result (string_bytes out.new ≡ string_bytes out.old ++ Pieces.piece_text piece) }
{
    match piece {
        Piece::Star(qual, gap) => {
            out.push_str("*")?;
            push_parted(out, qual)?;
            if gap {
                out.push_str(" ")?;
            }
            Ok(())
        }
        Piece::Open => out.push_str("("),
    }
}

// Adds the pieces, the last one first.
fn push_front(out: &mut String, front: &[Piece]) -> Result<(), AllocError>
    ensures { OnOk result (string_bytes out.new ≡ string_bytes out.old ++ Pieces.front_text front.now) }
{
    let mut rest = front;
    while let Some((piece, before)) = rest.split_last() {
        rest = before;
        push_piece(out, *piece)?;
    }
    Ok(())
}

fn is_star(piece: Piece) -> bool
    ensures { result ≡ Pieces.is_star piece }
{
    match piece {
        Piece::Star(_, _) => true,
        Piece::Open => false,
    }
}

fn begins_so(text: &[u8]) -> bool
    ensures { result ≡ spec.begins_with_star text.now }
{
    match text.split_first() {
        Some((first, _)) => *first == b'*',
        None => false,
    }
}

impl Declarator {
    pub(crate) fn of(alloc: Global, name: &str) -> Result<Declarator, AllocError>
        ensures { IfOk result (λ d. d ≡ name.now) }
    {
        let back = String::from_str(alloc, name)?;
        Ok(Declarator {
            front: Vec::new(alloc),
            back,
        })
    }

    fn is_empty(&self) -> bool
        ensures { result ≡ Pieces.is_nothing self.now }
    {
        match self.front.as_slice().split_last() {
            Some((_, _)) => false,
            None => self.back.is_empty(),
        }
    }

    fn begins_with_star(&self) -> bool
        ensures { result ≡ spec.begins_with_star self.now }
    {
        match self.front.as_slice().split_last() {
            Some((piece, _)) => is_star(*piece),
            None => begins_so(self.back.as_bytes()),
        }
    }

    fn with(self, piece: Piece) -> Result<Declarator, AllocError>
        ensures { IfOk result (λ d. d ≡ Pieces.piece_text piece ++ self) }
    {
        let Declarator { mut front, back } = self;
        front.push(piece)?;
        Ok(Declarator { front, back })
    }

    fn with_behind(self, text: &str) -> Result<Declarator, AllocError>
        ensures { IfOk result (λ d. d ≡ self ++ text.now) }
    {
        let Declarator { front, mut back } = self;
        back.push_str(text)?;
        Ok(Declarator { front, back })
    }

    /// With `*` and qualifiers in front.
    pub(crate) fn starred(self, qual: Qual) -> Result<Declarator, AllocError>
        ensures { IfOk result (λ d. d ≡ spec.starred (Names.words qual) self) }
    {
        let gap = has_words(qual) && !self.is_empty();
        self.with(Piece::Star(qual, gap))
    }

    fn grouped(self) -> Result<Declarator, AllocError>
        ensures { IfOk result (λ d. d ≡ spec.grouped self) }
    {
        if self.begins_with_star() {
            let opened = self.with(Piece::Open)?;
            return opened.with_behind(")");
        }
        Ok(self)
    }

    fn enclosing(self, opening: &str, inner: &str, closing: &str) -> Result<Declarator, AllocError>
        ensures { IfOk result (λ d. d ≡ spec.grouped self ++ (opening.now ++ (inner.now ++ closing.now))) }
    {
        let grouped = self.grouped()?;
        let opened = grouped.with_behind(opening)?;
        let filled = opened.with_behind(inner)?;
        filled.with_behind(closing)
    }

    /// With the brackets of an array behind.
    pub(crate) fn bracketed(self, alloc: Global, extent: Extent) -> Result<Declarator, AllocError>
        ensures { IfOk result (λ d. d ≡ spec.bracketed extent self) }
    {
        match extent {
            Extent::None => self.enclosing("[", "", "]"),
            Extent::Unknown => self.enclosing("[", "?", "]"),
            Extent::Size(size) => {
                let size = size.to_string(alloc)?;
                self.enclosing("[", size.as_str(), "]")
            }
        }
    }

    /// With a list of parameters behind.
    pub(crate) fn called(self, list: &str) -> Result<Declarator, AllocError>
        ensures { IfOk result (λ d. d ≡ spec.called list.now self) }
    {
        self.enclosing("(", list, ")")
    }

    /// Adds it to a text, behind a space where it isn't empty.
    pub(crate) fn push_behind(&self, out: &mut String) -> Result<(), AllocError>
        ensures { OnOk result (string_bytes out.new ≡ string_bytes out.old ++ spec.behind self.now) }
    {
        if self.is_empty() {
            return Ok(());
        }
        out.push_str(" ")?;
        push_front(out, self.front.as_slice())?;
        out.push_str(self.back.as_str())
    }
}
