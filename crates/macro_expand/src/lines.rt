// The lines of sites.
ghost use Rattle.std.specs.Prelude.{◌≡◌, IfOk};
ghost use Rattle.macro_expand.specs.Expansion as spec;

use std::alloc::{AllocError, Global};
use std::collections::HashMap;
use std::marker::Model;
use tok_data::TokId;

// Lines by their sites; of a site that stands there twice the first counts. Contracts see the list.
#[derive(Drop)]
pub(crate) struct Lines<'a> {
    list: &'a [(TokId, u32)],
    found: HashMap<TokId, u32>,
}

impl<'a> Model for Lines<'a> {
    ghost use Rattle.std.specs.Prelude.{List, ℕ, ◌≡◌};
    ghost use Rattle.std.specs.HashMap.{get};
    ghost use Rattle.tok_data.specs.declared.sources.TokId.{TokId as Site};
    ghost use Rattle.tok_data.specs.contracts.sources.TokIdPartialEq.TheImpl as toks;
    ghost use Rattle.macro_expand.specs.Expansion.{line_in};

    ghost Value = { List (Site × ℕ) };

    ghost view = { λ l. l.list.now };

    ghost invariant = { λ l. (site : Site) → get toks.eq-value.it l.found site ≡ line_in l.list.now site };
}

impl<'a> Lines<'a> {
    pub(crate) fn of(alloc: Global, list: &'a [(TokId, u32)]) -> Result<Lines<'a>, AllocError>
        ensures { IfOk result (λ l. l ≡ list.now) }
    {
        let mut found = HashMap::new(alloc);
        let mut front = list;
        'sites: while let Some((last, before)) = front.split_last() {
            let site = last.0.copy()?;
            found.insert(site, last.1)?;
            front = before;
        }
        Ok(Lines { list, found })
    }

    // The line of a site.
    pub(crate) fn line(&self, site: &TokId) -> Option<u32>
        ensures { result ≡ spec.line_in self.now site.now }
    {
        match self.found.get(site) {
            Some(line) => Some(*line),
            None => None,
        }
    }
}
