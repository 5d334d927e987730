// What a row answers.
ghost use Rattle.std.specs.Prelude.{◌≡◌, ◌≢◌, [], ◌∷◌, Err, IfOk};
ghost use Rattle.expr_rules.specs.Operands as spec;
ghost use Rattle.type_data.specs.declared.judged.CheckError.TheVariants.{NoMemory};

use shared_list::Listing;
use shared_text::Name;
use std::alloc::{AllocError, Global};
use type_data::{CType, CheckError, Constancy, Fault, Judged, Node};
use type_rel::value;

/// What has a fault.
pub(crate) fn bad() -> Judged
    ensures { result ≡ spec.bad }
{
    value(CType::of(Node::Bad), Constancy::No)
}

/// A fault whose text prints nothing of the construct.
pub(crate) fn refuse(alloc: Global, at: u32, rule: u16) -> Result<Judged, CheckError>
    ensures { result ≡ spec.broken at rule [] [] }
{
    Err(CheckError::Broken(Fault {
        rule,
        at,
        names: Listing::from_vec(Vec::new(alloc)),
        types: Listing::from_vec(Vec::new(alloc)),
    }))
}

fn names_of(alloc: Global, name: &Name) -> Result<Listing<Name>, AllocError>
    ensures { IfOk result (λ names. names ≡ name.now ∷ []) }
{
    let name = name.share()?;
    let names = vec![in alloc; name]?;
    Ok(Listing::from_vec(names))
}

fn type_of(alloc: Global, ty: &CType) -> Result<Listing<CType>, AllocError>
    ensures { IfOk result (λ types. types ≡ ty.now ∷ []) }
{
    let ty = ty.share()?;
    let types = vec![in alloc; ty]?;
    Ok(Listing::from_vec(types))
}

fn types_of(alloc: Global, a: &CType, b: &CType) -> Result<Listing<CType>, AllocError>
    ensures { IfOk result (λ types. types ≡ a.now ∷ b.now ∷ []) }
{
    let a = a.share()?;
    let Ok(b) = b.share() else {
        drop(a);
        return Err(AllocError);
    };
    let types = vec![in alloc; a, b]?;
    Ok(Listing::from_vec(types))
}

/// A fault whose text prints a name.
pub(crate) fn refuse_name(
    alloc: Global,
    at: u32,
    rule: u16,
    name: &Name,
) -> Result<Judged, CheckError>
    ensures { result ≢ Err NoMemory → result ≡ spec.broken at rule (name.now ∷ []) [] }
{
    let Ok(names) = names_of(alloc, name) else {
        return Err(CheckError::NoMemory);
    };
    Err(CheckError::Broken(Fault {
        rule,
        at,
        names,
        types: Listing::from_vec(Vec::new(alloc)),
    }))
}

/// A fault whose text prints one type.
pub(crate) fn refuse_type(
    alloc: Global,
    at: u32,
    rule: u16,
    ty: &CType,
) -> Result<Judged, CheckError>
    ensures { result ≢ Err NoMemory → result ≡ spec.broken at rule [] (ty.now ∷ []) }
{
    let Ok(types) = type_of(alloc, ty) else {
        return Err(CheckError::NoMemory);
    };
    Err(CheckError::Broken(Fault {
        rule,
        at,
        names: Listing::from_vec(Vec::new(alloc)),
        types,
    }))
}

/// A fault whose text prints two types.
pub(crate) fn refuse_types(
    alloc: Global,
    at: u32,
    rule: u16,
    a: &CType,
    b: &CType,
) -> Result<Judged, CheckError>
    ensures { result ≢ Err NoMemory → result ≡ spec.broken at rule [] (a.now ∷ b.now ∷ []) }
{
    let Ok(types) = types_of(alloc, a, b) else {
        return Err(CheckError::NoMemory);
    };
    Err(CheckError::Broken(Fault {
        rule,
        at,
        names: Listing::from_vec(Vec::new(alloc)),
        types,
    }))
}
