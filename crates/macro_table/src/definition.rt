// A macro's definition.
use shared_list::Listing;
use shared_text::Name;
use tok_data::{OutTokens, TokId};

/// The parameters of a function-like macro, in order. Contracts see their names.
pub type Params = Listing<Name>;

/// A replacement list: the tokens that replace a macro's name, in order.
pub type Body = OutTokens;

/// A macro's definition (ISO C11 6.10.3).
#[derive(Debug, Drop)]
pub struct MacroDef {
    pub name: Name,
    /// The name's token in the `#define` line.
    pub tok: TokId,
    /// The parameters of a function-like macro, without `...`; none of an object-like one.
    pub params: Option<Params>,
    /// The parameters end in `...`.
    pub variadic: bool,
    pub body: Body,
}
