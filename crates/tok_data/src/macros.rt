// Where the names of macros stand (ISO C11 6.10.1, 6.10.3).
ghost use Rattle.std.specs.Prelude.{◌≡◌, IfOk};

use crate::sources::TokId;
use shared_text::Name;
use std::alloc::AllocError;

/// What a directive or the expansion does with a macro's name.
#[derive(Clone, Copy, Debug, PartialEq, Eq, Hash, Drop)]
pub enum MacroRole {
    /// `#define` of it.
    Defines,
    /// `#undef` of it.
    Undefines,
    /// `#ifdef`, `#ifndef` or `defined` of it.
    Tests,
    /// It is replaced, or left in a condition.
    Uses,
}

/// An occurrence of a macro's name.
#[derive(Debug, PartialEq, Eq, Hash, Drop)]
pub struct MacroOcc {
    /// The token of a text that it is, or its site where it is made.
    pub tok: TokId,
    pub name: Name,
    pub role: MacroRole,
    /// The name's token in the definition that is in force, after the directive for `Defines`.
    pub def: Option<TokId>,
    /// It is spelt in no text.
    pub made: bool,
}

fn copy_tok(tok: &Option<TokId>) -> Result<Option<TokId>, AllocError>
    ensures { IfOk result (λ copy. copy ≡ tok.now) }
{
    match tok {
        Some(tok) => {
            let tok = tok.copy()?;
            Ok(Some(tok))
        }
        None => Ok(None),
    }
}

impl MacroOcc {
    /// The same occurrence, its texts shared; it takes no memory but may be refused where one is shared 2^64 times.
    pub fn copy(&self) -> Result<MacroOcc, AllocError>
        ensures { IfOk result (λ copy. copy ≡ self.now) }
    {
        let tok = self.tok.copy()?;
        let name = self.name.share()?;
        let def = copy_tok(&self.def)?;
        Ok(MacroOcc {
            tok,
            name,
            role: self.role,
            def,
            made: self.made,
        })
    }
}
