// Copies of the tables of texts, which share the texts.
ghost use Rattle.std.specs.Prelude.{◌≡◌, IfOk};

use crate::kept::{KeptText, OpenDoc};
use std::alloc::{AllocError, Global};
use std::collections::BTreeMap;
use uri_paths::Path;

/// The same root, if there is one.
pub(crate) fn root_again(root: &Option<Path>) -> Result<Option<Path>, AllocError>
    ensures { IfOk result (λ again. again ≡ root.now) }
{
    match root {
        Some(path) => Ok(Some(path.share()?)),
        None => Ok(None),
    }
}

/// The same texts on disk.
pub(crate) fn disk_again(
    alloc: Global,
    disk: &BTreeMap<Path, KeptText>,
) -> Result<BTreeMap<Path, KeptText>, AllocError>
    ensures { IfOk result (λ copy. copy.entries ≡ disk.now.entries) }
{
    let mut copy = BTreeMap::new(alloc);
    for entry in disk.iter() {
        copy.insert(entry.0.share()?, entry.1.share()?)?;
    }
    Ok(copy)
}

/// The same open documents.
pub(crate) fn opened_again(
    alloc: Global,
    opened: &BTreeMap<Path, OpenDoc>,
) -> Result<BTreeMap<Path, OpenDoc>, AllocError>
    ensures { IfOk result (λ copy. copy.entries ≡ opened.now.entries) }
{
    let mut copy = BTreeMap::new(alloc);
    for entry in opened.iter() {
        copy.insert(entry.0.share()?, entry.1.share()?)?;
    }
    Ok(copy)
}
