// The texts that the tokens of items are named by.
ghost use Rattle.std.specs.Prelude.{◌≡◌, IfOk};
ghost use Rattle.scope_tables.specs.Files as spec;

use shared_text::Name;
use std::alloc::{AllocError, Global};
use tok_data::FileId;
use type_data::ItemName;

/// The text that the tokens of an item are named by: its label, `#`, and its number among the items with that label.
pub fn item_file(alloc: Global, item: &ItemName) -> Result<FileId, AllocError>
    ensures { IfOk result (λ file. file ≡ spec.text_of item.now) }
{
    let label = item.label.as_str();
    let nth = item.nth;
    let text = format!(in alloc; "{label}#{nth}")?;
    let name = Name::from_str(alloc, text.as_str())?;
    Ok(FileId::from_name(name))
}
