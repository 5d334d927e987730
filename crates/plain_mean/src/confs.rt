// How the units of a session are read.
ghost use Rattle.std.specs.Prelude.{◌≡◌, ◌++◌, ◌≤◌, length, option_map, Some, All, IfOk, IfSome, OnOk};
ghost use Rattle.doc_texts.specs.Texts.{text_at};
ghost use Rattle.project_conf.specs.Defines.{AreUsable};
ghost use Rattle.plain_mean.specs.Confs.{among, base_of, folders_from, conf_of, database_in, database_path, read_as, read_at, database_of, units_read, fault_read, database_fault, IsUsable};
ghost use Rattle.uri_paths.specs.Paths.{within};

use doc_texts::Docs;
use project_conf::{
    Conf, ConfError, Define, Defines, Folder, IncludePaths, Options, UnitConfs, commands,
};
use std::alloc::{AllocError, Global};
use uri_paths::{Path, within};

// The same definitions, shared.
fn copied_defines(alloc: Global, defines: &[Define]) -> Result<Defines, AllocError>
    ensures { IfOk result (λ copy. copy ≡ defines.now) }
{
    let mut out = Vec::new(alloc);
    let mut rest = defines;
    'defines: while let Some((define, behind)) = rest.split_first() {
        rest = behind;
        out.push(define.share()?)?;
    }
    Ok(Defines::from_vec(out))
}

// The folder from which another is taken: the root, or `/` where there is none.
fn base_of(alloc: Global, root: Option<&Path>) -> Result<Option<Path>, AllocError>
    ensures { IfOk result (λ base. base ≡ Some (base_of (option_map (λ r. r.now) root.entry))) }
{
    match root {
        Some(root) => Ok(Some(root.share()?)),
        None => {
            let base = Path::read(alloc, "/")?;
            Ok(base)
        }
    }
}

fn add_folder(
    alloc: Global,
    out: &mut Vec<Path>,
    base: &Path,
    folder: &Folder,
) -> Result<(), AllocError>
    ensures { OnOk result (out.new.items ≡ out.old.items ++ among (within base.now folder.now)) }
{
    match within(alloc, base, folder.as_str())? {
        Some(path) => {
            out.push(path)?;
            Ok(())
        }
        None => Ok(()),
    }
}

fn folders_from(alloc: Global, base: &Path, folders: &[Folder]) -> Result<IncludePaths, AllocError>
    ensures { IfOk result (λ paths. paths ≡ folders_from base.now folders.now) }
{
    let mut out = Vec::new(alloc);
    let mut rest = folders;
    'folders: while let Some((folder, behind)) = rest.split_first() {
        rest = behind;
        add_folder(alloc, &mut out, base, folder)?;
    }
    Ok(IncludePaths::from_vec(out))
}

fn shared_root(root: Option<&Path>) -> Result<Option<Path>, AllocError>
    ensures { IfOk result (λ copy. copy ≡ option_map (λ r. r.now) root.entry) }
{
    match root {
        Some(root) => Ok(Some(root.share()?)),
        None => Ok(None),
    }
}

/// Where the database of compilations stands: `compile_commands.json` at the root, where there is one.
pub fn database_path(alloc: Global, root: Option<&Path>) -> Result<Option<Path>, AllocError>
    ensures { IfOk result (λ path. path ≡ database_path (option_map (λ r. r.now) root.entry)) }
{
    match root {
        Some(root) => within(alloc, root, "compile_commands.json"),
        None => Ok(None),
    }
}

// What is read of a text as the database of a root, or why it is faulty.
#[tactic(auto, using(crate::proofs::Usable::read_units, crate::proofs::Usable::read_fault), unfolding(crate::specs::Confs::read_as))]
fn read_as(
    alloc: Global,
    root: &Path,
    text: &str,
) -> Result<Option<Result<UnitConfs, ConfError>>, AllocError>
    ensures read { IfOk result (λ read. read ≡ read_as root.now text.now) }
    ensures usable { IfOk result (λ read. IfSome (units_read read) (All (λ u. AreUsable 33554432 u.defines))) }
{
    if text.len() > 4_194_304 {
        return Ok(None);
    }
    match commands(alloc, text, root) {
        Ok(units) => Ok(Some(Ok(units))),
        Err(ConfError::NoMemory) => Err(AllocError),
        Err(error) => Ok(Some(Err(error))),
    }
}

// The database of the texts as it is read, None where there is none.
#[tactic(auto, unfolding(crate::specs::Confs::database_of))]
fn database_of(
    alloc: Global,
    docs: &Docs,
) -> Result<Option<Result<UnitConfs, ConfError>>, AllocError>
    ensures read { IfOk result (λ read. read ≡ database_of docs.now) }
    ensures usable { IfOk result (λ read. IfSome (units_read read) (All (λ u. AreUsable 33554432 u.defines))) }
{
    let Some(root) = docs.root() else {
        return Ok(None);
    };
    let Some(path) = within(alloc, root, "compile_commands.json")? else {
        return Ok(None);
    };
    let Some(text) = docs.text(&path) else {
        return Ok(None);
    };
    let read = read_as(alloc, root, text)?;
    Ok(read)
}

// A faulty database counts as absent.
fn units_read(read: Option<Result<UnitConfs, ConfError>>) -> Option<UnitConfs>
    ensures { result ≡ units_read read }
{
    match read {
        Some(Ok(units)) => Some(units),
        Some(Err(_)) => None,
        None => None,
    }
}

/// How the units of a session are read that has these options and these texts. A folder of the options is taken from the root, or from
/// `/` where there is none, and one that goes above `/` is skipped. The database is the text of `compile_commands.json` at the root; one
/// that is faulty, or has more than 4,194,304 bytes, counts as absent. It costs the options and the database's text. It fails for want
/// of memory alone.
pub fn conf_of(alloc: Global, options: &Options, docs: &Docs) -> Result<Conf, AllocError>
    ensures conf { IfOk result (λ conf. conf ≡ conf_of options.now docs.now) }
    ensures entries { IfOk result (λ conf. IfSome conf.database (All (λ u. AreUsable 33554432 u.defines))) }
{
    let defines = copied_defines(alloc, options.defines.as_slice())?;
    let includes = match base_of(alloc, docs.root())? {
        Some(base) => folders_from(alloc, &base, options.includes.as_slice())?,
        None => return Err(AllocError),
    };
    let root = shared_root(docs.root())?;
    let read = database_of(alloc, docs)?;
    Ok(Conf {
        root,
        includes,
        defines,
        database: units_read(read),
    })
}

/// Why the database of the texts is faulty, None where it isn't, or there is none. It costs the database's text. It fails for want of
/// memory alone.
pub fn database_fault(alloc: Global, docs: &Docs) -> Result<Option<ConfError>, AllocError>
    ensures { IfOk result (λ fault. fault ≡ database_fault docs.now) }
{
    let read = database_of(alloc, docs)?;
    match read {
        Some(Err(error)) => Ok(Some(error)),
        Some(Ok(_)) => Ok(None),
        None => Ok(None),
    }
}
