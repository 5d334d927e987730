// Type specifiers of one word, and how they combine (ISO C11 6.7.2p2).
ghost use Rattle.std.specs.Prelude.{◌≡◌, option_map};
ghost use Rattle.elab_core.specs.Kinds as spec;
ghost use Rattle.elab_core.specs.Ties.{shown_kind};

use type_data::Basic;

/// The word that names a type.
#[derive(Clone, Copy, Debug, PartialEq, Eq, Drop)]
pub enum Base {
    None,
    Void,
    Bool,
    Char,
    Int,
    Float,
    Double,
}

/// `short`, `long`, or `long long`.
#[derive(Clone, Copy, Debug, PartialEq, Eq, Drop)]
pub enum Size {
    None,
    Short,
    Long,
    LongLong,
}

/// `signed` or `unsigned`.
#[derive(Clone, Copy, Debug, PartialEq, Eq, Drop)]
pub enum Sign {
    None,
    Signed,
    Unsigned,
}

/// What type specifiers of one word say together.
#[derive(Clone, Copy, Debug, PartialEq, Eq, Drop)]
pub(crate) enum Kind {
    Void,
    Basic(Basic),
}

fn character(sign: Sign) -> Basic
    ensures { result ≡ spec.character sign }
{
    match sign {
        Sign::None => Basic::Char,
        Sign::Signed => Basic::SChar,
        Sign::Unsigned => Basic::UChar,
    }
}

fn integer(size: Size, sign: Sign) -> Basic
    ensures { result ≡ spec.integer size sign }
{
    match size {
        Size::None => match sign {
            Sign::Unsigned => Basic::UInt,
            Sign::None => Basic::Int,
            Sign::Signed => Basic::Int,
        },
        Size::Short => match sign {
            Sign::Unsigned => Basic::UShort,
            Sign::None => Basic::Short,
            Sign::Signed => Basic::Short,
        },
        Size::Long => match sign {
            Sign::Unsigned => Basic::ULong,
            Sign::None => Basic::Long,
            Sign::Signed => Basic::Long,
        },
        Size::LongLong => match sign {
            Sign::Unsigned => Basic::ULongLong,
            Sign::None => Basic::LongLong,
            Sign::Signed => Basic::LongLong,
        },
    }
}

fn alone(size: Size, sign: Sign, kind: Kind) -> Option<Kind>
    ensures { option_map shown_kind result ≡ spec.alone size sign (shown_kind kind) }
{
    match size {
        Size::None => match sign {
            Sign::None => Some(kind),
            Sign::Signed => None,
            Sign::Unsigned => None,
        },
        Size::Short => None,
        Size::Long => None,
        Size::LongLong => None,
    }
}

fn double(size: Size, sign: Sign) -> Option<Kind>
    ensures { option_map shown_kind result ≡ spec.double size sign }
{
    match sign {
        Sign::None => match size {
            Size::None => Some(Kind::Basic(Basic::Double)),
            Size::Long => Some(Kind::Basic(Basic::LongDouble)),
            Size::Short => None,
            Size::LongLong => None,
        },
        Sign::Signed => match size {
            Size::None => None,
            Size::Long => None,
            Size::Short => None,
            Size::LongLong => None,
        },
        Sign::Unsigned => match size {
            Size::None => None,
            Size::Long => None,
            Size::Short => None,
            Size::LongLong => None,
        },
    }
}

fn sized_character(size: Size, sign: Sign) -> Option<Kind>
    ensures { option_map shown_kind result ≡ spec.sized_character size sign }
{
    match size {
        Size::None => Some(Kind::Basic(character(sign))),
        Size::Short => None,
        Size::Long => None,
        Size::LongLong => None,
    }
}

fn without_name(size: Size, sign: Sign) -> Option<Kind>
    ensures { option_map shown_kind result ≡ spec.without_name size sign }
{
    match size {
        Size::None => match sign {
            Sign::None => None,
            Sign::Signed => Some(Kind::Basic(integer(size, sign))),
            Sign::Unsigned => Some(Kind::Basic(integer(size, sign))),
        },
        Size::Short => Some(Kind::Basic(integer(size, sign))),
        Size::Long => Some(Kind::Basic(integer(size, sign))),
        Size::LongLong => Some(Kind::Basic(integer(size, sign))),
    }
}

/// The type that they specify; none where they don't combine, or there is none.
pub(crate) fn combined(base: Base, size: Size, sign: Sign) -> Option<Kind>
    ensures { option_map shown_kind result ≡ spec.combined base size sign }
{
    match base {
        Base::None => without_name(size, sign),
        Base::Void => alone(size, sign, Kind::Void),
        Base::Bool => alone(size, sign, Kind::Basic(Basic::Bool)),
        Base::Char => sized_character(size, sign),
        Base::Int => Some(Kind::Basic(integer(size, sign))),
        Base::Float => alone(size, sign, Kind::Basic(Basic::Float)),
        Base::Double => double(size, sign),
    }
}

pub(crate) fn with_base(had: Base, base: Base) -> Option<Base>
    ensures { result ≡ spec.with_base had base }
{
    match had {
        Base::None => Some(base),
        Base::Void => None,
        Base::Bool => None,
        Base::Char => None,
        Base::Int => None,
        Base::Float => None,
        Base::Double => None,
    }
}

pub(crate) fn with_sign(had: Sign, sign: Sign) -> Option<Sign>
    ensures { result ≡ spec.with_sign had sign }
{
    match had {
        Sign::None => Some(sign),
        Sign::Signed => None,
        Sign::Unsigned => None,
    }
}

pub(crate) fn with_long(had: Size) -> Option<Size>
    ensures { result ≡ spec.with_long had }
{
    match had {
        Size::None => Some(Size::Long),
        Size::Long => Some(Size::LongLong),
        Size::Short => None,
        Size::LongLong => None,
    }
}

pub(crate) fn with_short(had: Size) -> Option<Size>
    ensures { result ≡ spec.with_short had }
{
    match had {
        Size::None => Some(Size::Short),
        Size::Short => None,
        Size::Long => None,
        Size::LongLong => None,
    }
}
