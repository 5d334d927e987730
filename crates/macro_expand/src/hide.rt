// Hide sets: the names that a token is no longer replaced by. A number stands for each set.
ghost use Rattle.std.specs.Prelude.{◌≡◌, [], IsTrue, Some};
ghost use Rattle.macro_expand.specs.Ties.Codes.{coded};

use std::marker::Model;

// The number of a hide set; the empty set has none.
#[derive(Drop)]
pub(crate) struct HideSet {
    number: Option<usize>,
}

impl Model for HideSet {
    ghost use Rattle.std.specs.Prelude.{List, ℕ};
    ghost use Rattle.macro_expand.specs.Ties.Codes.{coded};

    ghost Value = { List (List ℕ) };

    ghost view = { λ h. coded h.number };
}

impl HideSet {
    pub(crate) fn empty() -> HideSet
        ensures { result ≡ [] }
    {
        HideSet { number: None }
    }

    pub(crate) fn numbered(number: usize) -> HideSet
        ensures { result ≡ coded (Some number) }
    {
        HideSet {
            number: Some(number),
        }
    }

    pub(crate) fn number(&self) -> Option<usize>
        ensures { self.now ≡ coded result }
    {
        self.number
    }

    pub(crate) fn is_empty(&self) -> bool
        ensures { IsTrue result → self.now ≡ [] }
    {
        self.number.is_none()
    }

    pub(crate) fn copy(&self) -> HideSet
        ensures { result ≡ self.now }
    {
        HideSet {
            number: self.number,
        }
    }
}
