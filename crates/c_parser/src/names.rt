// Names that are typedef names where an item is parsed.
ghost use Rattle.std.specs.Prelude.{◌≡◌};

use shared_text::Name;
use std::marker::Model;

/// The typedef names in force among the identifiers of an item (ISO C11 6.7.8). Contracts see the list of them.
#[derive(Debug, Drop)]
pub struct NameSet {
    typedefs: Vec<Name>,
}

impl Model for NameSet {
    ghost use Rattle.std.specs.Prelude.{ℕ, List};

    ghost Value = { List (List ℕ) };

    ghost view = { λ s. s.typedefs.items };
}

impl NameSet {
    /// The set of these names.
    pub fn from_vec(typedefs: Vec<Name>) -> NameSet
        ensures { result ≡ typedefs.items }
    {
        NameSet { typedefs }
    }

    /// Its names.
    pub fn as_slice(&self) -> &[Name]
        ensures { result.now ≡ self.now }
    {
        self.typedefs.as_slice()
    }
}
