// Heads of external declarations (ISO C11 6.7, 6.7.10, 6.9).
ghost use Rattle.std.specs.Prelude.{◌≡◌};
ghost use Rattle.tree_data.specs.Heads.{heading_of, declared_of};
ghost use Rattle.tree_data.specs.Seen.{specs_of, assertion_of};
ghost use Rattle.tree_data.specs.Trees as spec;

use crate::inits::Init;
use crate::members::Assertion;
use crate::types::{Declarator, Specs};

/// A declaration up to and with its `;`, or a function's up to and with the `{` of its body (6.7, 6.9.1), or a static assertion
/// (6.7.10), which has no specifiers. The tokens `,`, `=`, `;` and `{` have no number here: they stand between and behind the parts.
#[derive(Drop)]
pub struct Head {
    pub specs: Specs,
    pub declarators: Vec<(Declarator, Option<Init>)>,
    pub has_body: bool,
    pub assertion: Option<Assertion>,
}

impl Head {
    /// Specifiers and declarators.
    pub fn new(specs: Specs, declarators: Vec<(Declarator, Option<Init>)>, has_body: bool) -> Head
        ensures { heading_of result ≡ spec.Declares_of (specs_of specs) (declared_of declarators.items) has_body }
    {
        Head {
            specs,
            declarators,
            has_body,
            assertion: None,
        }
    }

    /// A static assertion, beside nothing else.
    pub fn asserted(
        nothing: Specs,
        none: Vec<(Declarator, Option<Init>)>,
        assertion: Assertion,
    ) -> Head
        ensures { heading_of result ≡ spec.Asserts_of (assertion_of assertion) }
    {
        Head {
            specs: nothing,
            declarators: none,
            has_body: false,
            assertion: Some(assertion),
        }
    }
}
