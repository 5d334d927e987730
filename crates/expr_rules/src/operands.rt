// Operands after their conversion: what they are brought to (ISO C11 6.3.1).
ghost use Rattle.std.specs.Prelude.{◌≡◌};
ghost use Rattle.expr_rules.specs.Operands as spec;

use type_data::{CType, Judged, Place};
use type_rel::{promote, usual};

fn width_of(place: Place) -> Option<u8>
    ensures { result ≡ spec.width_of place }
{
    match place {
        Place::BitField(width) => Some(width),
        Place::Value => None,
        Place::Object => None,
        Place::Register => None,
        Place::Function => None,
    }
}

#[tactic(auto, unfolding(crate::specs::Operands::promoted_type))]
pub(crate) fn promoted_type(j: &Judged) -> CType
    ensures { result ≡ spec.promoted_type j.now }
{
    promote(&j.ty, width_of(j.place))
}

#[tactic(auto, unfolding(crate::specs::Operands::usual_type))]
pub(crate) fn usual_type(a: &Judged, b: &Judged) -> CType
    ensures { result ≡ spec.usual_type a.now b.now }
{
    let a = promoted_type(a);
    let b = promoted_type(b);
    let ty = usual(&a, &b);
    drop(b);
    drop(a);
    ty
}
