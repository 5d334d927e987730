// What an operand is after lvalue, array and function conversion (ISO C11 6.3.2.1).
ghost use Rattle.std.specs.Prelude.{◌≡◌, IfOk};
ghost use Rattle.type_rel.specs.Conversion as spec;

use crate::kinds::{UNQUALIFIED, integer_type};
use std::alloc::{AllocError, Global};
use type_data::{CType, Constancy, IntTy, Judged, Node, Place};

/// A value, which has no qualifiers.
pub fn value(ty: CType, constant: Constancy) -> Judged
    ensures { result ≡ spec.value ty constant }
{
    Judged {
        ty,
        qual: UNQUALIFIED,
        place: Place::Value,
        constant,
    }
}

/// The constancy of an operand that is read: of an object nothing is known.
pub fn after_reading(place: Place, constant: Constancy) -> Constancy
    ensures { result ≡ spec.after_reading place constant }
{
    match place {
        Place::Value => constant,
        Place::Object => Constancy::No,
        Place::BitField(_) => Constancy::No,
        Place::Register => Constancy::No,
        Place::Function => constant,
    }
}

fn as_operand(integer: Option<IntTy>, constant: Constancy) -> Constancy
    ensures { result ≡ spec.as_operand integer constant }
{
    match integer {
        Some(_) => constant,
        None => match constant {
            Constancy::Int(_) => Constancy::Arith,
            Constancy::No => Constancy::No,
            Constancy::Arith => Constancy::Arith,
            Constancy::Addr => Constancy::Addr,
            Constancy::Null => Constancy::Null,
        },
    }
}

/// An operand after lvalue, array and function conversion (ISO C11 6.3.2.1): a value of its type without qualifiers, or a pointer.
#[tactic(auto, unfolding(crate::specs::Conversion::converted))]
pub fn converted(alloc: Global, j: &Judged) -> Result<Judged, AllocError>
    ensures { IfOk result (λ c. c ≡ spec.converted j.now) }
{
    match j.ty.node() {
        Node::Array(of, qual, _) => {
            let of = of.share()?;
            let ty = CType::pointer(alloc, of, *qual)?;
            Ok(value(ty, j.constant))
        }
        Node::Function(_, _, _) => {
            let function = j.ty.share()?;
            let ty = CType::pointer(alloc, function, UNQUALIFIED)?;
            Ok(value(ty, j.constant))
        }
        _ => {
            let ty = j.ty.share()?;
            let constant = as_operand(integer_type(&j.ty), after_reading(j.place, j.constant));
            Ok(value(ty, constant))
        }
    }
}
