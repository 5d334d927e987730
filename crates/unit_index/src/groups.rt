// Tokens by the text that they stand in.
ghost use Rattle.std.specs.Prelude.{◌≡◌, ◌++◌, [], ◌∷◌, ℕ, List, if◌then◌else◌, IfOk, OnOk};
ghost use Rattle.std.specs.List.{filter};
ghost use Rattle.unit_index.specs.Groups as spec;

use shared_list::Listing;
use std::alloc::{AllocError, Global};
use std::collections::HashMap;
use tok_data::{FileId, TokId};

/// Tokens, found by their texts at a constant cost.
pub(crate) type Groups = HashMap<FileId, Listing<TokId>>;

#[tactic(auto, unfolding(crate::specs::Groups::in_group))]
fn no_groups(alloc: Global) -> Groups
    ensures { (f : List ℕ) → spec.in_group result f ≡ [] }
{
    HashMap::new(alloc)
}

/// The tokens of a text.
#[tactic(auto, unfolding(crate::specs::Groups::in_group))]
pub(crate) fn group_of<'a>(groups: &'a Groups, file: &FileId) -> &'a [TokId]
    ensures { result.now ≡ spec.in_group groups.now file.now }
{
    match groups.get(file) {
        Some(list) => list.as_slice(),
        None => &[],
    }
}

// Takes the tokens of a text out.
#[tactic(auto, unfolding(crate::specs::Groups::in_group))]
fn taken(alloc: Global, groups: &mut Groups, file: &FileId) -> Vec<TokId>
    ensures list { result.items ≡ spec.in_group groups.old file.now }
    ensures others { (f : List ℕ) → spec.in_group groups.new f ≡ (if spec.same_file file.now f then [] else spec.in_group groups.old f) }
{
    match groups.remove(file) {
        Some(list) => list.into_vec(),
        None => Vec::new(alloc),
    }
}

#[tactic(auto, unfolding(crate::specs::Groups::in_group))]
fn put(groups: &mut Groups, file: &FileId, list: Vec<TokId>) -> Result<(), AllocError>
    ensures { OnOk result ((f : List ℕ) → spec.in_group groups.new f ≡ (if spec.same_file file.now f then list.items else spec.in_group groups.old f)) }
{
    let file = file.copy()?;
    groups
        .insert(file, Listing::from_vec(list))
        .map_err(AllocError::from)?;
    Ok(())
}

fn add(alloc: Global, groups: &mut Groups, tok: &TokId) -> Result<(), AllocError>
    ensures { OnOk result ((f : List ℕ) → spec.in_group groups.new f ≡ spec.in_group groups.old f ++ (if spec.is_in f tok.now then tok.now ∷ [] else [])) }
{
    let mut list = taken(alloc, groups, &tok.file);
    let copy = tok.copy()?;
    list.push(copy)?;
    put(groups, &tok.file, list)?;
    Ok(())
}

/// Tokens by their texts.
pub(crate) fn grouped(alloc: Global, tokens: &[TokId]) -> Result<Groups, AllocError>
    ensures { IfOk result (λ groups. (f : List ℕ) → spec.in_group groups f ≡ filter (spec.is_in f) tokens.now) }
{
    let mut groups = no_groups(alloc);
    let mut rest = tokens;
    'tokens: while let Some((tok, behind)) = rest.split_first() {
        add(alloc, &mut groups, tok)?;
        rest = behind;
    }
    Ok(groups)
}
