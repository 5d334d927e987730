// Runs that stopped, and lists of questions.
ghost use Rattle.std.specs.Prelude.{◌≡◌, IfOk};
ghost use Rattle.stmt_checks.specs.Halts as halts;
ghost use Rattle.stmt_checks.specs.Meanings as spec;

use elab_state::{Halt, Wanted};
use shared_list::Listing;
use std::alloc::{AllocError, Global};

fn one(alloc: Global, wanted: Wanted) -> Result<Listing<Wanted>, AllocError>
    ensures { IfOk result (λ list. list ≡ halts.only wanted) }
{
    let mut list = Vec::new(alloc);
    list.push(wanted)?;
    Ok(Listing::from_vec(list))
}

/// What a run that stopped asks.
pub(crate) fn asked_by(alloc: Global, halt: Halt) -> Result<Listing<Wanted>, AllocError>
    ensures { IfOk result (λ list. halts.IsAsked halt list) }
{
    match halt {
        Halt::Wants(wanted) => one(alloc, wanted),
        Halt::NoMemory => Err(AllocError),
    }
}

pub(crate) fn is_none(asked: &Listing<Wanted>) -> bool
    ensures { result ≡ spec.is_none asked.now }
{
    asked.as_slice().is_empty()
}
