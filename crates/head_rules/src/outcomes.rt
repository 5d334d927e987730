// What rows give.
use scope_tables::Entity;
use shared_list::Listing;
use type_data::{Fault, Member, TagId};

/// What an enumerator comes to.
#[derive(Drop)]
pub struct Enumerated {
    /// What its name denotes from here on; none where what its scope has under that name stays, which its token then denotes.
    pub entity: Option<Entity>,
    pub fault: Option<Fault>,
}

/// What the name of a member denotes.
#[derive(Drop)]
pub enum Denotes {
    /// It has no name.
    Nothing,
    Itself(Entity),
    /// The earlier member that has its name, by the token of that.
    Earlier(TagId),
}

/// What a member comes to.
#[derive(Drop)]
pub struct Fielded {
    pub denotes: Denotes,
    pub fault: Option<Fault>,
}

/// What a whole list of members comes to.
#[derive(Drop)]
pub struct ClosedFields {
    pub members: Listing<Member>,
    /// On each array of no size that isn't the last member, whose type is faulty from here on.
    pub faults: Listing<Fault>,
}

/// Which tag a body defines.
#[derive(Drop)]
pub enum Begun {
    /// A new one, which is told by its own token.
    New,
    /// The one that its scope has.
    Again(TagId),
    /// None: it has a fault.
    Refused(Fault),
}
