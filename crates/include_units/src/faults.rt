// Faults in order, of which those of open literals are found by their tokens.
ghost use Rattle.std.specs.Prelude.{◌≡◌, ◌==◌, ◌&&◌, ◌||◌, ◌++◌, ◌∷◌, [], OnOk, OnErr};
ghost use Rattle.std.specs.HashSet.{contains};
ghost use Rattle.tok_data.specs.declared.sources.TokId.{TokId as Tok};
ghost use Rattle.tok_data.specs.contracts.sources.TokIdPartialEq.TheImpl as toks;
ghost use Rattle.include_units.specs.Shown.{is_at, is_shown};

use std::alloc::{AllocError, Global};
use std::collections::HashSet;
use std::marker::Model;
use tok_data::{PpFault, TokId};

// Contracts see the faults.
#[derive(Drop)]
pub(crate) struct Faults {
    items: Vec<PpFault>,
    shown: HashSet<TokId>,
}

impl Model for Faults {
    ghost use Rattle.std.specs.Prelude.{◌≡◌, List};
    ghost use Rattle.std.specs.HashSet.{contains};
    ghost use Rattle.tok_data.specs.declared.faults.PpFault.{PpFault};
    ghost use Rattle.tok_data.specs.declared.sources.TokId.{TokId as Tok};
    ghost use Rattle.tok_data.specs.contracts.sources.TokIdPartialEq.TheImpl as toks;
    ghost use Rattle.include_units.specs.Shown.{is_shown};

    ghost Value = { List PpFault };

    ghost view = { λ f. f.items.items };

    ghost invariant = { λ f. (tok : Tok) → contains toks.eq-value.it f.shown tok ≡ is_shown 102 tok f.items.items };
}

// Notes the token of a fault of an open literal.
fn note(shown: &mut HashSet<TokId>, fault: &PpFault) -> Result<(), AllocError>
    ensures noted { OnOk result ((tok : Tok) → contains toks.eq-value.it shown.new tok ≡ contains toks.eq-value.it shown.old tok || (fault.now.rule == 102 && is_at fault.now.tok tok)) }
    ensures kept { OnErr result ((tok : Tok) → contains toks.eq-value.it shown.new tok ≡ contains toks.eq-value.it shown.old tok) }
{
    if fault.rule != 102 {
        return Ok(());
    }
    let tok = fault.tok.copy()?;
    shown.insert(tok).map_err(AllocError::from)?;
    Ok(())
}

impl Faults {
    pub(crate) fn new(alloc: Global) -> Faults
        ensures { result ≡ [] }
    {
        Faults {
            items: Vec::new(alloc),
            shown: HashSet::new(alloc),
        }
    }

    // The literal of this token was shown to be open.
    pub(crate) fn has_open(&self, tok: &TokId) -> bool
        ensures { result ≡ is_shown 102 tok.now self.now }
    {
        self.shown.contains(tok)
    }

    pub(crate) fn push(&mut self, fault: PpFault) -> Result<(), AllocError>
        ensures { OnOk result (self.new ≡ self.old ++ fault ∷ []) }
    {
        self.items.reserve(1)?;
        note(&mut self.shown, &fault)?;
        self.items.push_reserved(fault);
        Ok(())
    }

    pub(crate) fn extend(&mut self, more: Vec<PpFault>) -> Result<(), AllocError>
        ensures { OnOk result (self.new ≡ self.old ++ more.items) }
    {
        for fault in more {
            self.push(fault)?;
        }
        Ok(())
    }

    pub(crate) fn into_vec(self) -> Vec<PpFault>
        ensures { result.items ≡ self }
    {
        self.items
    }
}
