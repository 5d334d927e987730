// Literals that their line leaves open (rule 102).
ghost use Rattle.std.specs.Prelude.{◌≡◌, false, OnOk};
ghost use Rattle.include_units.specs.Literals as spec;

use crate::made::Made;
use std::alloc::{AllocError, Global};
use tok_data::{OutToken, PpKind};

// Whether the text, which stands behind a quote, ends in one that closes the literal.
fn closes(quote: u8, text: &[u8]) -> bool
    ensures { result ≡ spec.closes quote false false text.now }
{
    let mut escaped = false;
    let mut closed = false;
    let mut rest = text;
    while let Some((c, behind)) = rest.split_first() {
        rest = behind;
        if escaped {
            escaped = false;
            closed = false;
            continue;
        }
        escaped = *c == b'\\';
        closed = *c == quote;
    }
    closed
}

// Whether a literal with this quote is closed, in front of which a prefix may stand.
fn is_closed(quote: u8, text: &[u8]) -> bool
    ensures { result ≡ spec.is_closed quote text.now }
{
    let mut rest = text;
    while let Some((c, behind)) = rest.split_first() {
        rest = behind;
        if *c == quote {
            return closes(quote, rest);
        }
    }
    false
}

fn is_open(token: &OutToken) -> bool
    ensures { result ≡ spec.is_open token.now }
{
    let text = token.spelling.as_str().as_bytes();
    match token.kind {
        PpKind::Char => !is_closed(b'\'', text),
        PpKind::Str => !is_closed(b'"', text),
        PpKind::Ident => false,
        PpKind::Number => false,
        PpKind::Header => false,
        PpKind::Punct => false,
        PpKind::Stray => false,
    }
}

fn show_open(alloc: Global, token: &OutToken, made: &mut Made) -> Result<(), AllocError>
    ensures { OnOk result (made.new ≡ spec.shown_open token.now made.old) }
{
    if is_open(token) && !made.faults.has_open(&token.site) {
        return made.add_fault(alloc, 102, &token.site, "");
    }
    Ok(())
}

// Shows the open literals of a line.
pub(crate) fn all_open(
    alloc: Global,
    tokens: &[OutToken],
    made: &mut Made,
) -> Result<(), AllocError>
    ensures { OnOk result (made.new ≡ spec.all_open tokens.now made.old) }
{
    let mut rest = tokens;
    while let Some((token, behind)) = rest.split_first() {
        rest = behind;
        show_open(alloc, token, made)?;
    }
    Ok(())
}

// Shows them where the line stands in a group that is taken.
pub(crate) fn open_where(
    alloc: Global,
    taken: bool,
    tokens: &[OutToken],
    made: &mut Made,
) -> Result<(), AllocError>
    ensures { OnOk result (made.new ≡ spec.open_where taken tokens.now made.old) }
{
    if taken {
        return all_open(alloc, tokens, made);
    }
    Ok(())
}
