// A unit cut into items.
ghost use Rattle.std.specs.Prelude.{◌≡◌, ◌≤◌, length, IfOk};
ghost use Rattle.item_cut.specs.Items as spec;

use crate::progress::Progress;
use std::alloc::{AllocError, Global};
use tok_data::OutToken;

/// The items of a unit (ISO C11 6.9), in order: of each the number of its first token and the number behind its last.
/// An item ends after a `;` at depth 0 or after the `}` that ends its body, where depth counts brackets, and a `{` at
/// depth 0 opens a body exactly where a `)` stands before it and no `=` at depth 0 earlier in the item. A rest is an
/// item. A unit that is cut has at most 2,000,000 tokens.
pub fn cut(alloc: Global, tokens: &[OutToken]) -> Result<Vec<(u32, u32)>, AllocError>
    requires { length tokens.now ≤ 2000000 }
    ensures { IfOk result (λ v. v.items ≡ spec.items tokens.now) }
{
    let mut out = Vec::new(alloc);
    let mut progress = Progress::begun();
    let mut start: u32 = 0;
    let mut end: u32 = 0;
    let mut rest = tokens;
    while let Some((token, behind)) = rest.split_first() {
        rest = behind;
        end += 1;
        progress = progress.after(token.spelling.as_str());
        if progress.ends(token.spelling.as_str()) {
            out.push((start, end))?;
            start = end;
            progress = Progress::begun();
            continue;
        }
    }
    if start < end {
        out.push((start, end))?;
    }
    Ok(out)
}
