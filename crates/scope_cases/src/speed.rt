// Many names over many scopes, for their cost.
use crate::entities::object;
use scope_tables::{Life, ScopeKind, Scopes};
use shared_text::Name;
use std::alloc::{AllocError, Global};
use type_data::Space;

fn declare(alloc: Global, scopes: &mut Scopes, number: u64) -> Result<(), AllocError> {
    if scopes.depth() == 0 {
        return Ok(());
    }
    let name = format!(in alloc; "name{number}")?;
    let entity = object(alloc, name.as_str(), Life::Static)?;
    let name = Name::from_str(alloc, name.as_str())?;
    scopes.declare(Space::Ordinary, name, entity)?;
    Ok(())
}

fn is_found(alloc: Global, scopes: &Scopes, number: u64) -> Result<bool, AllocError> {
    let name = format!(in alloc; "name{number}")?;
    Ok(scopes.find(&Space::Ordinary, name.as_str()).is_some())
}

/// Declares so many names, so many in each scope, finds each, and leaves the scopes. The answer is how many were found.
pub fn play(alloc: Global, names: u64, each: u64) -> Result<u64, AllocError> {
    let mut scopes = Scopes::new(alloc);
    for number in 0..names {
        if each == 0 || number % each == 0 {
            scopes.enter(ScopeKind::Block)?;
        }
        declare(alloc, &mut scopes, number)?;
    }
    let mut found: u64 = 0;
    for number in 0..names {
        if is_found(alloc, &scopes, number)? {
            found = found.saturating_add(1);
        }
    }
    for _ in 0..names {
        if scopes.depth() == 0 {
            break;
        }
        scopes.leave();
    }
    Ok(found)
}
