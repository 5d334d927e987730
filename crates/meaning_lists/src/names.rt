// Names that are used, and names that are defined.
ghost use Rattle.std.specs.Prelude.{◌≡◌, ◌++◌, IfOk, OnOk};
ghost use Rattle.meaning_lists.specs.Names as spec;

use indexmap::IndexSet;
use scope_tables::{How, Stated};
use shared_text::Name;
use std::alloc::{AllocError, Global};

// Each name once, in the order of the first ones.
pub(crate) fn once(alloc: Global, names: Vec<Name>) -> Result<Vec<Name>, AllocError>
    ensures { IfOk result (λ v. v.items ≡ spec.once names.items) }
{
    let mut set = IndexSet::new(alloc);
    'names: for name in names {
        set.insert(name)?;
    }
    let mut out = Vec::with_capacity(alloc, set.len())?;
    'set: for name in set {
        out.push(name)?;
    }
    Ok(out)
}

fn is_definition(how: How) -> bool
    ensures { result ≡ spec.is_definition how }
{
    match how {
        How::Defines => true,
        How::Tentative => false,
        How::Refused => false,
        How::Declares => false,
    }
}

fn add_defined(out: &mut Vec<Name>, stated: &Stated) -> Result<(), AllocError>
    ensures { OnOk result (out.new.items ≡ out.old.items ++ spec.defined_by stated.now) }
{
    if is_definition(stated.how) {
        let name = stated.name.share()?;
        out.push(name)?;
    }
    Ok(())
}

// The names that are defined, in order.
pub(crate) fn defined(alloc: Global, stated: &[Stated]) -> Result<Vec<Name>, AllocError>
    ensures { IfOk result (λ v. v.items ≡ spec.defined stated.now) }
{
    let mut out = Vec::new(alloc);
    let mut rest = stated;
    'stated: while let Some((one, others)) = rest.split_first() {
        add_defined(&mut out, one)?;
        rest = others;
    }
    Ok(out)
}
