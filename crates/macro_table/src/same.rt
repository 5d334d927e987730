// When two definitions of a name are the same (ISO C11 6.10.3p1, 6.10.3p2).
ghost use Rattle.std.specs.Prelude.{◌≡◌, Decides, map};
ghost use Rattle.macro_table.specs.Same.{IsSame, inner_token, replacement};

use crate::definition::{MacroDef, Params};
use shared_text::Name;
use tok_data::OutToken;

fn same_names(a: &[Name], b: &[Name]) -> bool
    ensures { Decides result (a.now ≡ b.now) }
{
    a == b
}

fn same_params(a: &Option<Params>, b: &Option<Params>) -> bool
    ensures { Decides result (a.now ≡ b.now) }
{
    match (a, b) {
        (Some(a), Some(b)) => same_names(a.as_slice(), b.as_slice()),
        (None, None) => true,
        _ => false,
    }
}

fn same_spelling(a: &OutToken, b: &OutToken) -> bool
    ensures { Decides result ((a.now.kind ≡ b.now.kind) × (a.now.spelling ≡ b.now.spelling)) }
{
    a.kind == b.kind && a.spelling == b.spelling
}

fn same_token(a: &OutToken, b: &OutToken) -> bool
    ensures { Decides result (inner_token a.now ≡ inner_token b.now) }
{
    same_spelling(a, b) && a.space_before == b.space_before
}

// The tokens behind the first ones.
fn same_tokens(a: &[OutToken], b: &[OutToken]) -> bool
    ensures { Decides result (map inner_token a.now ≡ map inner_token b.now) }
{
    let mut left = a;
    let mut right = b;
    while let Some((x, more)) = left.split_first() {
        let Some((y, others)) = right.split_first() else {
            return false
        };
        if !same_token(x, y) {
            return false;
        }
        left = more;
        right = others;
    }
    right.is_empty()
}

fn same_body(a: &[OutToken], b: &[OutToken]) -> bool
    ensures { Decides result (replacement a.now ≡ replacement b.now) }
{
    match (a.split_first(), b.split_first()) {
        (Some((x, more)), Some((y, others))) => same_spelling(x, y) && same_tokens(more, others),
        (None, None) => true,
        _ => false,
    }
}

/// Whether two definitions of a name are the same.
pub fn same(a: &MacroDef, b: &MacroDef) -> bool
    ensures { Decides result (IsSame a.now b.now) }
{
    same_params(&a.params, &b.params)
        && a.variadic == b.variadic
        && same_body(a.body.as_slice(), b.body.as_slice())
}
