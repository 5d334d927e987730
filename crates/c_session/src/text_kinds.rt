// The kinds of the tokens of a class's texts.
ghost use Rattle.std.specs.Prelude.{◌≡◌, map, IfOk};
ghost use Rattle.c_session.specs.Outcomes.{kinds_at};
ghost use Rattle.plain_mean.specs.Ranges as spec;

use doc_texts::Docs;
use plain_mean::{kinds, paths_in};
use rename_core::FileKinds;
use shared_list::Listing;
use shared_text::Name;
use std::alloc::{AllocError, Global};
use tok_data::{FileId, TokId};
use uri_paths::Path;

fn kinds_at(alloc: Global, docs: &Docs, path: &Path) -> Result<FileKinds, AllocError>
    ensures { IfOk result (λ kinds. kinds ≡ kinds_at docs.now path.now) }
{
    let file = FileId::from_name(Name::from_str(alloc, path.as_str())?);
    let found = kinds(alloc, docs, path)?;
    Ok(FileKinds {
        file,
        kinds: Listing::from_vec(found),
    })
}

/// The kinds of the tokens of each text that has one of these tokens, in the order of their paths. It costs a lexing of each.
pub fn file_kinds(alloc: Global, docs: &Docs, toks: &[TokId]) -> Result<Vec<FileKinds>, AllocError>
    ensures { IfOk result (λ kinds. kinds.items ≡ map (kinds_at docs.now) (spec.paths_in toks.now)) }
{
    let paths = paths_in(alloc, toks)?;
    let mut all = Vec::new(alloc);
    let mut rest = paths.as_slice();
    'turn: while let Some((path, behind)) = rest.split_first() {
        rest = behind;
        let one = kinds_at(alloc, docs, path)?;
        all.push(one)?;
    }
    Ok(all)
}
