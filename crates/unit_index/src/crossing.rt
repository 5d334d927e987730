// A warning across units without its token.
use shared_list::Listing;
use shared_text::Name;

/// What is wrong with a name of a unit beside other units.
#[derive(Clone, Copy, Debug, PartialEq, Eq, Hash, Drop)]
pub enum Wrong {
    /// The first unit that declares it gives it a type that isn't compatible (ISO C11 6.2.7p2).
    OtherType,
    /// An earlier unit defines it too (6.9p5).
    DefinedToo,
}

/// A warning on a name of a unit, without its token: so it stays while the tokens of the unit move.
#[derive(Debug, Drop)]
pub struct Crossing {
    /// The number of the name among those that the unit shows.
    pub nth: u64,
    pub wrong: Wrong,
    /// The message.
    pub text: Name,
}

/// The warnings of a unit.
pub type Crossings = Listing<Crossing>;
