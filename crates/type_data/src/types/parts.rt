// What a type is made of.
ghost use Rattle.std.specs.Prelude.{◌≡◌, IfOk};
ghost use Rattle.type_data.specs.Seen;
ghost use Rattle.type_data.specs.Types;

use super::{CType, Node, ParamList, Params};
use crate::qualifiers::{Extent, Proto, Qual};
use std::alloc::{AllocError, Global};
use std::rc::Rc;

impl CType {
    /// What it is.
    pub fn node(&self) -> &Node
        ensures { Seen.type_of result.now ≡ self.now }
    {
        &self.node
    }

    /// A type that is this.
    pub fn of(node: Node) -> CType
        ensures { result ≡ Seen.type_of node }
    {
        CType { node }
    }

    /// A pointer to a type with these qualifiers.
    pub fn pointer(alloc: Global, to: CType, qual: Qual) -> Result<CType, AllocError>
        ensures { IfOk result (λ t. t ≡ Types.Pointer_to to qual) }
    {
        let to = Rc::new(alloc, to)?;
        Ok(CType::of(Node::Pointer(to, qual)))
    }

    /// An array of elements of a type with these qualifiers.
    pub fn array(alloc: Global, of: CType, qual: Qual, extent: Extent) -> Result<CType, AllocError>
        ensures { IfOk result (λ t. t ≡ Types.Array_of of qual extent) }
    {
        let of = Rc::new(alloc, of)?;
        Ok(CType::of(Node::Array(of, qual, extent)))
    }

    /// A function with this type of its result and these parameters.
    pub fn function(
        alloc: Global,
        returned: CType,
        params: Params,
        proto: Proto,
    ) -> Result<CType, AllocError>
        ensures { IfOk result (λ t. t ≡ Types.Function_of returned params proto) }
    {
        let returned = Rc::new(alloc, returned)?;
        Ok(CType::of(Node::Function(returned, params, proto)))
    }
}

impl Params {
    /// What it is.
    pub fn list(&self) -> &ParamList
        ensures { Seen.params_of result.now ≡ self.now }
    {
        &self.list
    }

    /// The parameters that this lists.
    pub fn of(list: ParamList) -> Params
        ensures { result ≡ Seen.params_of list }
    {
        Params { list }
    }

    /// A parameter of a type with its own qualifiers, in front of others.
    pub fn first(alloc: Global, ty: CType, qual: Qual, more: Params) -> Result<Params, AllocError>
        ensures { IfOk result (λ ps. ps ≡ Types.Parameter_then ty qual more) }
    {
        let ty = Rc::new(alloc, ty)?;
        let more = Rc::new(alloc, more)?;
        Ok(Params::of(ParamList::First(ty, qual, more)))
    }
}
