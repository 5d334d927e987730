// What a generic selection chooses among (ISO C11 6.5.1.1).
ghost use Rattle.std.specs.Prelude.{◌≡◌, IfOk};
ghost use Rattle.tree_data.specs.Trees as spec;
ghost use Rattle.tree_data.specs.Seen.{tree_of, association_of, type_of};

use crate::expr::Expr;
use crate::types::TypeName;
use std::alloc::{AllocError, Global};

/// An expression, and what the type of the controlling expression has to be for it.
#[derive(Drop)]
#[cycle(trees)]
pub enum Association {
    /// `type-name :` and the expression.
    Typed(Box<TypeName>, u32, Expr),
    /// `default :` and the expression.
    Default(u32, u32, Expr),
}

impl Association {
    /// For a type.
    pub fn typed(
        alloc: Global,
        name: TypeName,
        colon: u32,
        expr: Expr,
    ) -> Result<Association, AllocError>
        ensures { IfOk result (λ a. association_of a ≡ spec.Typed_of (type_of name) colon (tree_of expr)) }
    {
        let name = Box::new(alloc, name)?;
        Ok(Association::Typed(name, colon, expr))
    }

    /// For all other types.
    pub fn other(keyword: u32, colon: u32, expr: Expr) -> Association
        ensures { association_of result ≡ spec.Default_of keyword colon (tree_of expr) }
    {
        Association::Default(keyword, colon, expr)
    }
}
