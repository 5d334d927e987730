// Where an item's body begins.
ghost use Rattle.std.specs.Prelude.{◌≡◌, ◌≤◌, length};
ghost use Rattle.item_cut.specs.Items as spec;

use crate::progress::Progress;
use tok_data::OutToken;

/// The number of the token of an item that opens its body (ISO C11 6.9.1): of the `{` at depth 0 behind a `)`, with no `=` at depth 0 in front of
/// it. Where there is none it is the number of the item's tokens. An item has at most 2,000,000.
pub fn body_start(tokens: &[OutToken]) -> usize
    requires { length tokens.now ≤ 2000000 }
    ensures { result ≡ spec.body_at tokens.now }
{
    let mut progress = Progress::begun();
    let mut at: usize = 0;
    let mut rest = tokens;
    'tokens: while let Some((token, behind)) = rest.split_first() {
        if progress.opens(token.spelling.as_str()) {
            return at;
        }
        rest = behind;
        at += 1;
        progress = progress.after(token.spelling.as_str());
    }
    at
}
