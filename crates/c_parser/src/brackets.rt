// How deep brackets nest.
ghost use Rattle.std.specs.Prelude.{◌≡◌, ◌≤◌, length};
ghost use Rattle.c_parser.specs.Brackets as spec;

use crate::kinds::Kind;

// So many levels are allowed.
const DEEPEST: u32 = 256;

pub(crate) fn opens(kind: Kind) -> bool
    ensures { result ≡ spec.opens kind }
{
    matches!(kind, Kind::OpenParen | Kind::OpenBracket | Kind::OpenBrace)
}

pub(crate) fn closes(kind: Kind) -> bool
    ensures { result ≡ spec.closes kind }
{
    matches!(
        kind,
        Kind::CloseParen | Kind::CloseBracket | Kind::CloseBrace
    )
}

// The first bracket that opens a level too many.
pub(crate) fn too_deep(kinds: &[Kind]) -> Option<u32>
    requires { length kinds.now ≤ 2000000 }
    ensures { result ≡ spec.too_deep kinds.now }
{
    let mut depth: u32 = 0;
    let mut at: u32 = 0;
    let mut rest = kinds;
    while let Some((kind, behind)) = rest.split_first() {
        if opens(*kind) {
            if depth == DEEPEST {
                return Some(at);
            }
            depth += 1;
            at += 1;
            rest = behind;
            continue;
        }
        if closes(*kind) {
            depth = depth.saturating_sub(1);
            at += 1;
            rest = behind;
            continue;
        }
        at += 1;
        rest = behind;
    }
    None
}
