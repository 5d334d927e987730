// Lists that the types of units, conditions and expansions hold.
use crate::faults::PpFault;
use crate::macros::MacroOcc;
use crate::sources::TokId;
use crate::tokens::OutToken;
use shared_list::Listing;

/// Output tokens, in order.
pub type OutTokens = Listing<OutToken>;

/// Faults, in the order in which they were met.
pub type PpFaults = Listing<PpFault>;

/// Tokens of texts, in order.
pub type TokIds = Listing<TokId>;

/// Occurrences of macros' names, in order.
pub type MacroOccs = Listing<MacroOcc>;
