// Where the edits of a rename stand, as the client reads it (LSP 3.17, TextEdit).
ghost use Rattle.std.specs.Prelude.{◌≡◌, ◌≤◌, ◌++◌, [], length, flat_map, map, IfOk, OnOk};
ghost use Rattle.std.specs.List.{AllByRecursion};
ghost use Rattle.doc_texts.specs.Edited.{Stand};
ghost use Rattle.plain_mean.specs.Given.{text_in};
ghost use Rattle.plain_mean.specs.Ranges.{plain};
ghost use Rattle.c_session.specs.Places.{shown_at, span};
ghost use Rattle.c_session.specs.Renames.{located_at, located_in};

use crate::located::uri_for;
use crate::positions::text_in;
use doc_texts::{ByteRange, Docs, TextEdits};
use lsp_answers::Located;
use shared_text::Name;
use std::alloc::{AllocError, Global};
use text_lines::{Encoding, Walk};

// A range of a text, by a walk over it.
fn walked_to(
    alloc: Global,
    uri: &Name,
    walk: &mut Walk<'_>,
    range: &ByteRange,
) -> Result<Located, AllocError>
    requires start { range.now.start ≤ length walk.old.text }
    requires end { range.now.end ≤ length walk.old.text }
    ensures located { IfOk result (λ l. l ≡ shown_at uri.now 0 [] (span walk.old.text walk.old.encoding (range.now.start, range.now.end))) }
    ensures same { walk.new ≡ walk.old }
{
    let start = walk.pos(range.start);
    let end = walk.pos(range.end);
    let uri = uri.share()?;
    let name = Name::from_str(alloc, "")?;
    Ok(Located {
        uri,
        start,
        end,
        kind: 0,
        name,
    })
}

// The ranges of one text, which is walked over once, put behind those of others.
fn push_located(
    alloc: Global,
    docs: &Docs,
    encoding: Encoding,
    edits: &TextEdits,
    out: &mut Vec<Located>,
) -> Result<(), AllocError>
    requires { Stand (text_in docs.now edits.now.path) 0 edits.now.ranges.items }
    ensures { OnOk result (out.new.items ≡ out.old.items ++ located_in docs.now encoding (plain edits.now)) }
{
    let uri = uri_for(alloc, docs, &edits.path)?;
    let mut walk = Walk::new(text_in(docs, &edits.path), encoding);
    let mut rest = edits.ranges.as_slice();
    'turn: while let Some((range, behind)) = rest.split_first() {
        rest = behind;
        let one = walked_to(alloc, &uri, &mut walk, range)?;
        out.push(one)?;
    }
    Ok(())
}

/// The places of edits that stand in their texts, in their order. Each text is walked over once.
pub(crate) fn located_edits(
    alloc: Global,
    docs: &Docs,
    encoding: Encoding,
    edits: &[TextEdits],
) -> Result<Vec<Located>, AllocError>
    requires { AllByRecursion (λ e. Stand (text_in docs.now e.path) 0 e.ranges.items) edits.now }
    ensures { IfOk result (λ out. out.items ≡ flat_map (located_in docs.now encoding) (map plain edits.now)) }
{
    let mut out = Vec::new(alloc);
    let mut rest = edits;
    'turn: while let Some((one, behind)) = rest.split_first() {
        rest = behind;
        push_located(alloc, docs, encoding, one, &mut out)?;
    }
    Ok(out)
}
