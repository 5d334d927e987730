// Changes of a text, each made in the text that the one before left.
ghost use Rattle.std.specs.Prelude.{◌≡◌, ◌≢◌, ◌≤◌, List, ◌∷◌, length, Err, MatchResult, OnOk};
ghost use Rattle.std.specs.String.{string_bytes};
ghost use Rattle.text_lines.specs.declared.edit.Change.{Change};
ghost use Rattle.doc_texts.specs.declared.error.DocError.TheVariants.{NoMemory};
ghost use Rattle.doc_texts.specs.Docs.{all_edited, Answers};
ghost use Rattle.doc_texts.specs.Limits.{longest_kept};

use crate::error::DocError;
use crate::kept::KeptText;
use std::alloc::Global;
use text_lines::{Change, EditError, Encoding, apply};

/// The text that a text becomes by these changes, or the first reason why one of them is refused. It costs one copy of the text
/// and what the changes cost.
#[tactic(auto, unfolding(crate::specs::Docs::all_edited))]
pub(crate) fn edited(
    alloc: Global,
    text: &str,
    changes: &[Change],
    encoding: Encoding,
) -> Result<KeptText, DocError>
    requires { length text.now ≤ longest_kept }
    ensures { Answers result (all_edited text.now changes.now encoding) }
{
    let mut text = String::from_str(alloc, text)?;
    let mut rest = changes;
    while let Some((change, behind)) = rest.split_first() {
        rest = behind;
        make(&mut text, change, encoding)?;
    }
    Ok(KeptText::from_string(text)?)
}

/// Makes one change.
fn make(text: &mut String, change: &Change, encoding: Encoding) -> Result<(), DocError>
    requires { length (string_bytes text.old) ≤ longest_kept }
    ensures made { (rest : List Change) → MatchResult result (λ _. all_edited (string_bytes text.old) (change.now ∷ rest) encoding ≡ all_edited (string_bytes text.new) rest encoding) (λ e. e ≢ NoMemory → all_edited (string_bytes text.old) (change.now ∷ rest) encoding ≡ Err e) }
    ensures short { OnOk result (length (string_bytes text.new) ≤ longest_kept) }
{
    match apply(text, change, encoding) {
        Ok(()) => Ok(()),
        Err(EditError::Reversed) => Err(DocError::Reversed),
        Err(EditError::TooLong) => Err(DocError::TooLong),
        Err(EditError::NoMemory) => Err(DocError::NoMemory),
    }
}
