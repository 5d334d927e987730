// The parentheses of a list that is read and written at its front.
ghost use Rattle.std.specs.Prelude.{◌≡◌, [], ◌∷◌, ◌++◌, ◌<◌, ◌≤◌, ◌+◌, ◌^◌, ℕ, List, IfOk, IsTrue};
ghost use Rattle.std.specs.Prelude.{None, Some, is_some, map as list_map};
ghost use Rattle.macro_expand.specs.Ties.Parens as spec;
ghost use Rattle.macro_expand.specs.Tokens.{plain};

use crate::tokens::is_mark;
use std::alloc::{AllocError, Global};
use std::marker::Model;
use tok_data::OutToken;

// How many closing parentheses no opening one of the list takes, and how many these were behind each opening one, the
// first of the list last.
#[derive(Drop)]
pub(crate) struct Parens {
    free: usize,
    behind: Vec<usize>,
}

impl Model for Parens {
    ghost use Rattle.std.specs.Prelude.{List, ℕ};

    ghost Value = { ℕ × List ℕ };

    ghost view = { λ p. (p.free, p.behind.items) };
}

impl Parens {
    pub(crate) fn new(alloc: Global) -> Parens
        ensures { result ≡ (0, []) }
    {
        Parens {
            free: 0,
            behind: Vec::new(alloc),
        }
    }

    // With a token more at the front.
    #[tactic(auto, unfolding(crate::specs::Ties::Parens::before))]
    pub(crate) fn before(self, token: &OutToken) -> Result<Parens, AllocError>
        requires { self.0 < 18446744073709551615 }
        ensures value { IfOk result (λ p. p ≡ spec.before token.now self) }
        ensures free { IfOk result (λ p. p.0 ≤ self.0 + 1) }
    {
        let Parens { free, behind } = self;
        if is_mark("(", token) {
            let mut behind = behind;
            behind.push(free)?;
            return Ok(Parens {
                free: free.saturating_sub(1),
                behind,
            });
        }
        if is_mark(")", token) {
            return Ok(Parens {
                free: free + 1,
                behind,
            });
        }
        Ok(Parens { free, behind })
    }

    // Without the first token.
    #[tactic(auto, unfolding(crate::specs::Ties::Parens::before))]
    pub(crate) fn leave(&mut self, token: &OutToken)
        ensures { (p : ℕ × List ℕ) → self.old ≡ spec.before token.now p → self.new ≡ p }
    {
        if is_mark("(", token) {
            self.free = self.behind.pop().unwrap_or(0);
            return;
        }
        if is_mark(")", token) {
            self.free = self.free.saturating_sub(1);
        }
    }

    // Without the first tokens.
    pub(crate) fn leave_all(&mut self, tokens: &[OutToken])
        ensures { (p : ℕ × List ℕ) → self.old ≡ spec.all_before (list_map plain tokens.now) p → self.new ≡ p }
    {
        for token in tokens {
            self.leave(token);
        }
    }

    // Nothing was free behind the first opening parenthesis.
    pub(crate) fn is_first_open(&self) -> bool
        ensures { IsTrue result → (ns : List ℕ) (n : ℕ) → self.now.1 ≡ ns ++ n ∷ [] → n ≡ 0 }
    {
        match self.behind.last() {
            Some(free) => *free == 0,
            None => false,
        }
    }
}

// The parentheses of a list once they are counted, which most lists don't want.
#[derive(Drop)]
pub(crate) struct Counting {
    parens: Option<Parens>,
}

impl Model for Counting {
    ghost use Rattle.std.specs.Prelude.{Option, List, ℕ};

    ghost Value = { Option (ℕ × List ℕ) };

    ghost view = { λ c. c.parens };
}

impl Counting {
    pub(crate) fn none() -> Counting
        ensures { result ≡ None }
    {
        Counting { parens: None }
    }

    pub(crate) fn of(parens: Parens) -> Counting
        ensures { result ≡ Some parens }
    {
        Counting {
            parens: Some(parens),
        }
    }

    pub(crate) fn is_counted(&self) -> bool
        ensures { result ≡ is_some self.now }
    {
        self.parens.is_some()
    }

    // With a token more at the front.
    pub(crate) fn before(self, token: &OutToken) -> Result<Counting, AllocError>
        requires { (spec.counted self (0, [])).0 < 18446744073709551615 }
        ensures { IfOk result (λ c. (p : ℕ × List ℕ) → spec.counted self p ≡ p
            → spec.counted c (spec.before token.now p) ≡ spec.before token.now p) }
    {
        let Counting { parens } = self;
        match parens {
            Some(parens) => {
                let parens = parens.before(token)?;
                Ok(Counting::of(parens))
            }
            None => Ok(Counting::none()),
        }
    }

    // Without the first token.
    pub(crate) fn leave(&mut self, token: &OutToken)
        ensures { (p : ℕ × List ℕ) → spec.counted self.old (spec.before token.now p) ≡ spec.before token.now p
            → spec.counted self.new p ≡ p }
    {
        match &mut self.parens {
            Some(parens) => parens.leave(token),
            None => {}
        }
    }

    // Without the first tokens.
    pub(crate) fn leave_all(&mut self, tokens: &[OutToken])
        ensures { (p : ℕ × List ℕ) → spec.counted self.old (spec.all_before (list_map plain tokens.now) p)
            ≡ spec.all_before (list_map plain tokens.now) p → spec.counted self.new p ≡ p }
    {
        match &mut self.parens {
            Some(parens) => parens.leave_all(tokens),
            None => {}
        }
    }

    // Nothing was free behind the first opening parenthesis.
    pub(crate) fn is_first_open(&self) -> bool
        ensures { IsTrue result → (p : ℕ × List ℕ) → spec.counted self.now p ≡ p
            → (ns : List ℕ) (n : ℕ) → p.1 ≡ ns ++ n ∷ [] → n ≡ 0 }
    {
        match &self.parens {
            Some(parens) => parens.is_first_open(),
            None => false,
        }
    }
}
