// Places in a text as a client reads them (LSP 3.17, Position, Range).
ghost use Rattle.std.specs.Prelude.{◌≡◌, IfOk};
ghost use Rattle.serde_json.specs.View.{view};
ghost use Rattle.lsp_answers.specs.Places.{pos_data, range_data};

use serde_json::{Value, json};
use std::alloc::{AllocError, Global};
use text_lines::Pos;

/// A Position.
pub fn pos_value(alloc: Global, pos: Pos) -> Result<Value, AllocError>
    ensures { IfOk result (λ v. view v ≡ pos_data pos) }
{
    let line = pos.line;
    let character = pos.character;
    json!(in alloc; {"character": character, "line": line})
}

/// A Range.
pub fn range_value(alloc: Global, start: Pos, end: Pos) -> Result<Value, AllocError>
    ensures { IfOk result (λ v. view v ≡ range_data start end) }
{
    let start = pos_value(alloc, start)?;
    let end = pos_value(alloc, end)?;
    json!(in alloc; {"end": end, "start": start})
}
