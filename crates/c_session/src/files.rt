// Which files are loaded from a root.
ghost use Rattle.std.specs.Prelude.{◌≡◌, IfOk};
ghost use Rattle.c_session.specs.Files.{is_c_file, is_database, is_loaded, wanted_path, unreadable_logs, to_load};
ghost use Rattle.c_session.specs.Loading.{is_read};
ghost use Rattle.std.specs.Prelude.{option_map};

use doc_texts::PathSet;
use io_edges::Listed;
use lsp_answers::push_log;
use std::alloc::{AllocError, Global};
use uri_paths::{Path, within};

#[tactic(auto, unfolding(crate::specs::Files::is_c_file))]
fn is_c_file(path: &Path) -> bool
    ensures { result ≡ is_c_file path.now }
{
    let text = path.as_str().as_bytes();
    text.ends_with(b".c")
        || text.ends_with(b".h")
        || text.ends_with(b".inc")
        || text.ends_with(b".def")
}

/// Whether a path is the compilation database of the root.
fn is_database(alloc: Global, root: &Path, path: &Path) -> Result<bool, AllocError>
    ensures { IfOk result (λ b. b ≡ is_database root.now path.now) }
{
    match within(alloc, root, "compile_commands.json")? {
        Some(database) => Ok(path.as_str() == database.as_str()),
        None => Ok(false),
    }
}

/// Whether the text of a file is loaded.
fn is_loaded(alloc: Global, root: &Path, path: &Path) -> Result<bool, AllocError>
    ensures { IfOk result (λ b. b ≡ is_loaded root.now path.now) }
{
    if is_c_file(path) {
        return Ok(true);
    }
    is_database(alloc, root, path)
}

/// Whether the store is asked for a file: there is a root, and the file is one that is loaded.
pub(crate) fn is_read(alloc: Global, root: Option<&Path>, path: &Path) -> Result<bool, AllocError>
    ensures { IfOk result (λ b. b ≡ is_read (option_map (λ p. p.now) root.entry) path.now) }
{
    match root {
        None => Ok(false),
        Some(root) => is_loaded(alloc, root, path),
    }
}

/// A log message for each listed name that isn't UTF-8.
pub(crate) fn unreadable_logs(alloc: Global, found: &[Listed]) -> Result<Vec<u8>, AllocError>
    ensures { IfOk result (λ v. v.items ≡ unreadable_logs found.now) }
{
    let mut logs = Vec::new(alloc);
    let mut rest = found;
    'listed: while let Some((listed, behind)) = rest.split_first() {
        rest = behind;
        match listed {
            Listed::File(_) => continue,
            Listed::NoText => push_log(alloc, &mut logs, "load: NoText")?,
        }
    }
    Ok(logs)
}

/// The path of a listed file, where it is one that is loaded.
fn wanted_path(alloc: Global, root: &Path, text: &str) -> Result<Option<Path>, AllocError>
    ensures { IfOk result (λ o. o ≡ wanted_path root.now text.now) }
{
    match Path::read(alloc, text)? {
        None => Ok(None),
        Some(path) => {
            if is_loaded(alloc, root, &path)? {
                return Ok(Some(path));
            }
            Ok(None)
        }
    }
}

/// The files that are loaded from what a store lists, in order of path, each once.
pub(crate) fn to_load(alloc: Global, root: &Path, found: &[Listed]) -> Result<Vec<Path>, AllocError>
    ensures { IfOk result (λ v. v.items ≡ to_load root.now found.now) }
{
    let mut paths = PathSet::new(alloc);
    let mut rest = found;
    'listed: while let Some((listed, behind)) = rest.split_first() {
        rest = behind;
        let Listed::File(text) = listed else {
            continue;
        };
        let Some(path) = wanted_path(alloc, root, text.as_str())? else {
            continue;
        };
        paths.insert(path)?;
    }
    paths.paths()
}
