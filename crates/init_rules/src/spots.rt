// What the next initializer of a list is for.
use type_data::CType;

#[derive(Drop)]
pub(crate) enum Spot {
    /// The whole object, without a list.
    Whole,
    /// It isn't known what.
    Unchecked,
    /// Nothing: there are too many.
    Full,
    /// The part of the innermost place with this number and type.
    At(u128, CType),
}

/// What the object of which a designator speaks may take.
#[derive(Clone, Copy, Drop)]
pub(crate) enum Standing {
    /// There is none: the designator stands in no list.
    Unlisted,
    /// It isn't known.
    Unknown,
    /// A scalar that has its initializer.
    Spent,
    Able,
}
