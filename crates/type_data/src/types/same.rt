// Copies of types, which share their parts, and whether two types are the same.
ghost use Rattle.std.specs.Prelude.{◌≡◌, IfOk};
ghost use Rattle.std.specs.Cmp;
ghost use Rattle.type_data.specs.Same;
ghost use Rattle.type_data.specs.Same.{same_type, same_params};
ghost use Rattle.type_data.specs.SameLaws.{types_equiv, params_equiv};

use super::{CType, Node, ParamList, Params};
use std::alloc::AllocError;

impl CType {
    /// The same type, whose parts are shared with this one. It takes no memory, but may be refused where a part is shared
    /// 2^64 times.
    pub fn share(&self) -> Result<CType, AllocError>
        ensures { IfOk result (λ copy. copy ≡ self.now) }
    {
        let node = match &self.node {
            Node::Void => Node::Void,
            Node::Basic(basic) => Node::Basic(*basic),
            Node::Enumerated(id) => Node::Enumerated(id.share()?),
            Node::Tagged(id) => Node::Tagged(id.share()?),
            Node::Pointer(to, qual) => Node::Pointer(to.clone()?, *qual),
            Node::Array(of, qual, extent) => Node::Array(of.clone()?, *qual, *extent),
            Node::Function(result, params, proto) => {
                Node::Function(result.clone()?, params.share()?, *proto)
            }
            Node::Bad => Node::Bad,
        };
        Ok(CType { node })
    }

    #[cycle(same)]
    fn same(&self, other: &CType) -> bool
        ensures { result ≡ Same.same_type self.now other.now }
    {
        match (&self.node, &other.node) {
            (Node::Void, Node::Void) => true,
            (Node::Basic(a), Node::Basic(b)) => a == b,
            (Node::Enumerated(a), Node::Enumerated(b)) => a == b,
            (Node::Tagged(a), Node::Tagged(b)) => a == b,
            (Node::Pointer(a, q), Node::Pointer(b, r)) => q == r && a.same(b),
            (Node::Array(a, q, m), Node::Array(b, r, n)) => q == r && m == n && a.same(b),
            (Node::Function(a, ps, p), Node::Function(b, qs, q)) => {
                p == q && a.same(b) && ps.same(qs)
            }
            (Node::Bad, Node::Bad) => true,
            _ => false,
        }
    }
}

impl Params {
    /// The same list, shared with this one.
    pub fn share(&self) -> Result<Params, AllocError>
        ensures { IfOk result (λ copy. copy ≡ self.now) }
    {
        let list = match &self.list {
            ParamList::Empty => ParamList::Empty,
            ParamList::First(ty, qual, more) => ParamList::First(ty.clone()?, *qual, more.clone()?),
        };
        Ok(Params { list })
    }

    #[cycle(same)]
    fn same(&self, other: &Params) -> bool
        ensures { result ≡ Same.same_params self.now other.now }
    {
        match (&self.list, &other.list) {
            (ParamList::Empty, ParamList::Empty) => true,
            (ParamList::First(a, q, more), ParamList::First(b, r, others)) => {
                q == r && a.same(b) && more.same(others)
            }
            _ => false,
        }
    }
}

impl PartialEq for CType {
    ghost eq = { same_type };

    ghost laws = { Cmp.partial_equiv_from_equiv types_equiv };

    fn eq(&self, other: &Self) -> bool {
        self.same(other)
    }
}

impl Eq for CType {
    ghost laws = { types_equiv };
}

impl PartialEq for Params {
    ghost eq = { same_params };

    ghost laws = { Cmp.partial_equiv_from_equiv params_equiv };

    fn eq(&self, other: &Self) -> bool {
        self.same(other)
    }
}

impl Eq for Params {
    ghost laws = { params_equiv };
}
