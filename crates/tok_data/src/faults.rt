// Faults: a rule, the token that it falls on, and the text that its message prints.
ghost use Rattle.std.specs.Prelude.{◌≡◌, IfOk};

use crate::sources::TokId;
use shared_text::Name;
use std::alloc::AllocError;

/// A fault of preprocessing.
#[derive(Debug, PartialEq, Eq, Hash, Drop)]
pub struct PpFault {
    /// The number of the rule that is broken.
    pub rule: u16,
    pub tok: TokId,
    /// The name that its message prints.
    pub text: Name,
}

impl PpFault {
    /// The same fault, its texts shared; it takes no memory but may be refused where one is shared 2^64 times.
    pub fn copy(&self) -> Result<PpFault, AllocError>
        ensures { IfOk result (λ copy. copy ≡ self.now) }
    {
        let tok = self.tok.copy()?;
        let text = self.text.share()?;
        Ok(PpFault {
            rule: self.rule,
            tok,
            text,
        })
    }
}

/// A fault that is shown on a token of a text.
#[derive(Debug, PartialEq, Eq, Hash, Drop)]
pub struct ShownFault {
    pub tok: TokId,
    /// The number of the rule that is broken.
    pub rule: u16,
    /// The whole message.
    pub text: Name,
}

impl ShownFault {
    /// The same fault, its texts shared; it takes no memory but may be refused where one is shared 2^64 times.
    pub fn copy(&self) -> Result<ShownFault, AllocError>
        ensures { IfOk result (λ copy. copy ≡ self.now) }
    {
        let tok = self.tok.copy()?;
        let text = self.text.share()?;
        Ok(ShownFault {
            tok,
            rule: self.rule,
            text,
        })
    }
}

/// A fault that is shown, with its range in bytes of its token's text.
#[derive(Debug, PartialEq, Eq, Hash, Drop)]
pub struct Placed {
    pub fault: ShownFault,
    pub start: u32,
    pub end: u32,
}

impl Placed {
    /// The same fault, its texts shared; it takes no memory but may be refused where one is shared 2^64 times.
    pub fn copy(&self) -> Result<Placed, AllocError>
        ensures { IfOk result (λ copy. copy ≡ self.now) }
    {
        let fault = self.fault.copy()?;
        Ok(Placed {
            fault,
            start: self.start,
            end: self.end,
        })
    }
}
