// What is written of a declarator or parameter (ISO C11 6.7, 6.7.6.3).
use scope_tables::ScopeKind;
use shared_text::Name;
use tok_data::TokId;
use type_data::{CType, Qual, Value};

/// The storage-class specifier of a declaration but for `_Thread_local` (ISO C11 6.7.1).
#[derive(Clone, Copy, Debug, PartialEq, Eq, Drop)]
pub enum Storage {
    None,
    Typedef,
    Extern,
    Static,
    Auto,
    Register,
}

/// One declarator with its specifiers, or one parameter.
#[derive(Drop)]
pub struct DeclParts {
    /// The name; empty for a parameter without one.
    pub name: Name,
    /// The number of the name's token in the item, on which a fault is put.
    pub at: u32,
    /// The name's token, or the place at which it was made.
    pub tok: TokId,
    /// The name's token was made by macro replacement.
    pub made: bool,
    pub storage: Storage,
    pub inline: bool,
    pub noreturn: bool,
    pub thread: bool,
    /// The strictest alignment, in bytes, that its specifiers state, where there are any.
    pub align: Option<Value>,
    /// The type, that of a parameter after its adjustment (6.7.6.3p7, p8).
    pub ty: CType,
    pub qual: Qual,
    /// Where it stands: file scope, a block, or for parameters a prototype.
    pub scope: ScopeKind,
    pub has_init: bool,
    /// It is that of a function definition, or a parameter of one.
    pub has_body: bool,
    /// Its declarator has a list of parameters next to the name.
    pub has_list: bool,
}
