// Promotions and the usual arithmetic conversions (ISO C11 6.3.1.1, 6.3.1.8).
ghost use Rattle.std.specs.Prelude.{◌≡◌};
ghost use Rattle.type_rel.specs.Arithmetic;

use type_data::{Basic, CType, IntTy, Node};

/// The integer type that a basic type is (6.2.5p17).
pub fn integer_of(basic: Basic) -> Option<IntTy>
    ensures { result ≡ Arithmetic.integer_of basic }
{
    match basic {
        Basic::Bool => Some(IntTy::Bool),
        Basic::Char => Some(IntTy::Char),
        Basic::SChar => Some(IntTy::SChar),
        Basic::UChar => Some(IntTy::UChar),
        Basic::Short => Some(IntTy::Short),
        Basic::UShort => Some(IntTy::UShort),
        Basic::Int => Some(IntTy::Int),
        Basic::UInt => Some(IntTy::UInt),
        Basic::Long => Some(IntTy::Long),
        Basic::ULong => Some(IntTy::ULong),
        Basic::LongLong => Some(IntTy::LongLong),
        Basic::ULongLong => Some(IntTy::ULongLong),
        Basic::Float => None,
        Basic::Double => None,
        Basic::LongDouble => None,
    }
}

/// The basic type that an integer type is.
pub fn basic_of(ty: IntTy) -> Basic
    ensures { result ≡ Arithmetic.basic_of ty }
{
    match ty {
        IntTy::Bool => Basic::Bool,
        IntTy::Char => Basic::Char,
        IntTy::SChar => Basic::SChar,
        IntTy::UChar => Basic::UChar,
        IntTy::Short => Basic::Short,
        IntTy::UShort => Basic::UShort,
        IntTy::Int => Basic::Int,
        IntTy::UInt => Basic::UInt,
        IntTy::Long => Basic::Long,
        IntTy::ULong => Basic::ULong,
        IntTy::LongLong => Basic::LongLong,
        IntTy::ULongLong => Basic::ULongLong,
    }
}

/// The integer conversion rank.
fn rank(ty: IntTy) -> u8
    ensures { result ≡ Arithmetic.rank ty }
{
    match ty {
        IntTy::Bool => 0,
        IntTy::Char | IntTy::SChar | IntTy::UChar => 1,
        IntTy::Short | IntTy::UShort => 2,
        IntTy::Int | IntTy::UInt => 3,
        IntTy::Long | IntTy::ULong => 4,
        IntTy::LongLong | IntTy::ULongLong => 5,
    }
}

fn bits(ty: IntTy, width: Option<u8>) -> u32
    ensures { result ≡ Arithmetic.bits ty width }
{
    match width {
        Some(width) => width as u32,
        None => ty.width(),
    }
}

#[tactic(auto, unfolding(crate::specs::Arithmetic::fits_int))]
fn fits_int(ty: IntTy, width: Option<u8>) -> bool
    ensures { result ≡ Arithmetic.fits_int ty width }
{
    if ty.is_signed() {
        return true;
    }
    bits(ty, width) < 32
}

#[tactic(auto, unfolding(crate::specs::Arithmetic::promoted_integer))]
fn promoted_integer(ty: IntTy, width: Option<u8>) -> IntTy
    ensures { result ≡ Arithmetic.promoted_integer ty width }
{
    if 3 < rank(ty) {
        return ty;
    }
    if fits_int(ty, width) {
        return IntTy::Int;
    }
    IntTy::UInt
}

pub(crate) fn promoted_basic(basic: Basic, width: Option<u8>) -> Basic
    ensures { result ≡ Arithmetic.promoted_basic basic width }
{
    match integer_of(basic) {
        Some(ty) => basic_of(promoted_integer(ty, width)),
        None => basic,
    }
}

/// The type of an arithmetic value after the integer promotions (ISO C11 6.3.1.1p2); `width` is that of a bit-field. A
/// bit-field of a type that is wider than int keeps its type. It takes no memory.
pub fn promote(a: &CType, width: Option<u8>) -> CType
    ensures { result ≡ Arithmetic.promoted a.now width }
{
    match a.node() {
        Node::Basic(basic) => CType::of(Node::Basic(promoted_basic(*basic, width))),
        Node::Enumerated(_) => CType::of(Node::Basic(Basic::Int)),
        _ => CType::of(Node::Bad),
    }
}

fn unsigned_of(ty: IntTy) -> IntTy
    ensures { result ≡ Arithmetic.unsigned_of ty }
{
    match ty {
        IntTy::Long => IntTy::ULong,
        IntTy::LongLong => IntTy::ULongLong,
        _ => IntTy::UInt,
    }
}

#[tactic(auto, unfolding(crate::specs::Arithmetic::mixed))]
fn mixed(signed: IntTy, unsigned: IntTy) -> IntTy
    ensures { result ≡ Arithmetic.mixed signed unsigned }
{
    if rank(signed) <= rank(unsigned) {
        return unsigned;
    }
    if unsigned.width() < signed.width() {
        return signed;
    }
    unsigned_of(signed)
}

#[tactic(auto, unfolding(crate::specs::Arithmetic::greater))]
fn greater(a: IntTy, b: IntTy) -> IntTy
    ensures { result ≡ Arithmetic.greater a b }
{
    if rank(a) < rank(b) { b } else { a }
}

#[tactic(auto, unfolding(crate::specs::Arithmetic::usual_integer))]
fn usual_integer(a: IntTy, b: IntTy) -> IntTy
    ensures { result ≡ Arithmetic.usual_integer a b }
{
    if a.is_signed() {
        return if b.is_signed() {
            greater(a, b)
        } else {
            mixed(a, b)
        };
    }
    if b.is_signed() {
        mixed(b, a)
    } else {
        greater(a, b)
    }
}

fn precision(basic: Basic) -> u8
    ensures { result ≡ Arithmetic.precision basic }
{
    match basic {
        Basic::LongDouble => 3,
        Basic::Double => 2,
        Basic::Float => 1,
        _ => 0,
    }
}

#[tactic(auto, unfolding(crate::specs::Arithmetic::usual_basic))]
fn usual_basic(a: Basic, b: Basic) -> Basic
    ensures { result ≡ Arithmetic.usual_basic a b }
{
    if precision(a) < precision(b) {
        return b;
    }
    if precision(b) < precision(a) {
        return a;
    }
    match (integer_of(a), integer_of(b)) {
        (Some(s), Some(t)) => basic_of(usual_integer(s, t)),
        _ => a,
    }
}

/// The common type of two promoted arithmetic values (ISO C11 6.3.1.8). It takes no memory.
pub fn usual(a: &CType, b: &CType) -> CType
    ensures { result ≡ Arithmetic.usual a.now b.now }
{
    match (a.node(), b.node()) {
        (Node::Basic(a), Node::Basic(b)) => CType::of(Node::Basic(usual_basic(*a, *b))),
        _ => CType::of(Node::Bad),
    }
}
