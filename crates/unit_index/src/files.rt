// The texts in which a unit defines or declares something.
ghost use Rattle.std.specs.Prelude.{◌≡◌, ◌||◌, ℕ, false, List, IfOk, OnOk};
ghost use Rattle.std.specs.List.{list_any};
ghost use Rattle.unit_index.specs.Files as spec;
ghost use Rattle.unit_index.specs.Groups.{same_file};
ghost use Rattle.unit_index.specs.References;

use indexmap::IndexSet;
use scope_tables::{Occ, Role};
use std::alloc::{AllocError, Global};
use tok_data::FileId;

/// Whether a token with this role defines or declares something.
pub(crate) fn introduces(role: Role) -> bool
    ensures { result ≡ References.introduces role }
{
    match role {
        Role::Defines => true,
        Role::Declares => true,
        Role::Uses => false,
        Role::Pasted => false,
        Role::Spelled => false,
    }
}

/// No texts.
#[tactic(auto, unfolding(crate::specs::Files::has_file))]
pub(crate) fn no_files(alloc: Global) -> IndexSet<FileId>
    ensures { (f : List ℕ) → spec.has_file result f ≡ false }
{
    IndexSet::new(alloc)
}

#[tactic(auto, unfolding(crate::specs::Files::has_file))]
fn add_file(files: &mut IndexSet<FileId>, file: &FileId) -> Result<(), AllocError>
    ensures { OnOk result ((f : List ℕ) → spec.has_file files.new f ≡ spec.has_file files.old f || same_file file.now f) }
{
    let file = file.copy()?;
    files.insert(file).map_err(AllocError::from)?;
    Ok(())
}

fn note(files: &mut IndexSet<FileId>, occ: &Occ) -> Result<(), AllocError>
    ensures { OnOk result ((f : List ℕ) → spec.has_file files.new f ≡ spec.has_file files.old f || spec.introduces_in f occ.now) }
{
    if !introduces(occ.role) {
        return Ok(());
    }
    add_file(files, &occ.tok.file)
}

/// Texts more.
pub(crate) fn add_files(files: &mut IndexSet<FileId>, more: &[FileId]) -> Result<(), AllocError>
    ensures { OnOk result ((f : List ℕ) → spec.has_file files.new f ≡ spec.has_file files.old f || list_any (same_file f) more.now) }
{
    let mut rest = more;
    'files: while let Some((file, behind)) = rest.split_first() {
        rest = behind;
        add_file(files, file)?;
    }
    Ok(())
}

/// The texts of the occurrences that define or declare, each once.
pub(crate) fn files_of(alloc: Global, occs: &[Occ]) -> Result<IndexSet<FileId>, AllocError>
    ensures { IfOk result (λ files. (f : List ℕ) → spec.has_file files f ≡ list_any (spec.introduces_in f) occs.now) }
{
    let mut files = no_files(alloc);
    let mut rest = occs;
    'occs: while let Some((occ, behind)) = rest.split_first() {
        note(&mut files, occ)?;
        rest = behind;
    }
    Ok(files)
}
