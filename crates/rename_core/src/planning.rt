// Whether a class may be given another name, as far as the class and the name tell.
ghost use Rattle.std.specs.Prelude.{◌≡◌, ◌≢◌, ◌∷◌, [], Err, IfOk};
ghost use Rattle.rename_core.specs.declared.error.RenameError.TheVariants.{NoMemory};
ghost use Rattle.rename_core.specs.Refusals as spec;

use crate::class::{Class, Plan, TwoMeanings};
use crate::error::RenameError;
use c_tokens::is_identifier;
use shared_text::Name;
use std::alloc::{AllocError, Global};
use tok_data::is_keyword;

#[tactic(auto, unfolding(crate::specs::Refusals::is_new_name))]
fn is_new_name(name: &str) -> bool
    ensures { result ≡ spec.is_new_name name.now }
{
    is_identifier(name) && (!is_keyword(name) && name.len() <= 1023)
}

fn in_library(class: &Class) -> Result<Option<RenameError>, AllocError>
    ensures { IfOk result (λ o. o ≡ spec.in_library class.now) }
{
    match &class.library {
        Some(tok) => {
            let tok = tok.copy()?;
            Ok(Some(RenameError::Library(tok)))
        }
        None => Ok(None),
    }
}

fn is_pasted(class: &Class) -> Result<Option<RenameError>, AllocError>
    ensures { IfOk result (λ o. o ≡ spec.is_pasted class.now) }
{
    match &class.pasted {
        Some(tok) => {
            let tok = tok.copy()?;
            Ok(Some(RenameError::Pasted(tok)))
        }
        None => Ok(None),
    }
}

fn is_stringized(class: &Class) -> Result<Option<RenameError>, AllocError>
    ensures { IfOk result (λ o. o ≡ spec.is_stringized class.now) }
{
    match &class.spelled {
        Some(tok) => {
            let tok = tok.copy()?;
            Ok(Some(RenameError::Stringized(tok)))
        }
        None => Ok(None),
    }
}

fn share(two: &TwoMeanings) -> Result<TwoMeanings, AllocError>
    ensures { IfOk result (λ copy. copy ≡ two.now) }
{
    let tok = two.tok.copy()?;
    let first = two.first.share()?;
    let second = two.second.share()?;
    Ok(TwoMeanings { tok, first, second })
}

fn has_two_meanings(class: &Class) -> Result<Option<RenameError>, AllocError>
    ensures { IfOk result (λ o. o ≡ spec.has_two_meanings class.now) }
{
    match &class.two {
        Some(two) => {
            let two = share(two)?;
            Ok(Some(RenameError::TwoMeanings(two)))
        }
        None => Ok(None),
    }
}

/// The first refusal by the class alone, behind those by the name.
fn refusal_of(class: &Class) -> Result<Option<RenameError>, AllocError>
    ensures { IfOk result (λ o. o ≡ spec.first_of (spec.in_library class.now ∷ spec.is_pasted class.now ∷ spec.is_stringized class.now ∷ spec.has_two_meanings class.now ∷ [])) }
{
    let library = in_library(class)?;
    if let Some(refusal) = library {
        return Ok(Some(refusal));
    }
    let pasted = is_pasted(class)?;
    if let Some(refusal) = pasted {
        return Ok(Some(refusal));
    }
    let stringized = is_stringized(class)?;
    if let Some(refusal) = stringized {
        return Ok(Some(refusal));
    }
    let two = has_two_meanings(class)?;
    Ok(two)
}

fn refusal(class: &Class, new_name: &str) -> Result<Option<RenameError>, AllocError>
    ensures { IfOk result (λ o. o ≡ spec.refusal class.now new_name.now) }
{
    if class.toks.as_slice().is_empty() {
        return Ok(Some(RenameError::NoName));
    }
    if !is_new_name(new_name) {
        return Ok(Some(RenameError::NotIdentifier));
    }
    let refusal = refusal_of(class)?;
    Ok(refusal)
}

impl Class {
    /// Whether nothing stands in the way of a new name, but for what depends on the name: the class has a token, none of them stands
    /// in a library text, is spelled by `#` or denotes two entities in one unit, and no token that `##` made denotes what they do.
    pub fn can_be_renamed(&self) -> bool
        ensures { result ≡ spec.can_be_renamed self.now }
    {
        if self.toks.as_slice().is_empty() {
            return false;
        }
        if self.library.is_some() {
            return false;
        }
        if self.pasted.is_some() {
            return false;
        }
        if self.spelled.is_some() {
            return false;
        }
        self.two.is_none()
    }
}

/// The plan to give a class this name; refused where the class is empty, the name is no identifier, is a keyword or has more than
/// 1,023 bytes (ISO C11 6.4.1, 6.4.2.1), or something of the class stands in the way, with the token that shows it. The first
/// refusal of `RenameError` that holds is the answer. The class moves into the plan; at a refusal it is let go.
pub fn plan(alloc: Global, class: Class, new_name: &str) -> Result<Plan, RenameError>
    ensures { result ≢ Err NoMemory → result ≡ spec.planned class new_name.now }
{
    let refused = match refusal(&class, new_name) {
        Ok(refused) => refused,
        Err(_) => return Err(RenameError::NoMemory),
    };
    if let Some(refusal) = refused {
        return Err(refusal);
    }
    let Ok(new_name) = Name::from_str(alloc, new_name) else {
        return Err(RenameError::NoMemory);
    };
    Ok(Plan { class, new_name })
}
