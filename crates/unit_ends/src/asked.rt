// What is asked of the statements of a unit (ISO C11 6.2.2, 6.9, 6.9.2).
ghost use Rattle.std.specs.Prelude.{◌≡◌};
ghost use Rattle.unit_ends.specs.Ends as spec;
ghost use Rattle.unit_ends.specs.Kept;

use scope_tables::{How, Linkage, Stated};
use type_data::{CType, Node};

/// What is asked of a statement.
#[derive(Clone, Copy)]
pub(crate) enum Asked {
    /// Nothing: it states the name.
    Stated,
    Defined,
    Tentative,
    /// It defines or would define.
    Given,
}

pub(crate) fn defines(how: How) -> bool
    ensures { result ≡ spec.defines how }
{
    match how {
        How::Defines => true,
        How::Tentative => false,
        How::Refused => false,
        How::Declares => false,
    }
}

fn is_tentative(how: How) -> bool
    ensures { result ≡ spec.is_tentative how }
{
    match how {
        How::Tentative => true,
        How::Defines => false,
        How::Refused => false,
        How::Declares => false,
    }
}

fn gives(how: How) -> bool
    ensures { result ≡ spec.gives how }
{
    match how {
        How::Defines => true,
        How::Tentative => true,
        How::Refused => true,
        How::Declares => false,
    }
}

/// Whether a statement is what is asked for.
pub(crate) fn is_asked(asked: Asked, stated: &Stated) -> bool
    ensures { result ≡ Kept.asks asked stated.now.how }
{
    match asked {
        Asked::Stated => true,
        Asked::Defined => defines(stated.how),
        Asked::Tentative => is_tentative(stated.how),
        Asked::Given => gives(stated.how),
    }
}

pub(crate) fn is_internal(linkage: Linkage) -> bool
    ensures { result ≡ spec.is_internal linkage }
{
    match linkage {
        Linkage::Internal => true,
        Linkage::External => false,
        Linkage::None => false,
    }
}

pub(crate) fn is_external(linkage: Linkage) -> bool
    ensures { result ≡ spec.is_external linkage }
{
    match linkage {
        Linkage::External => true,
        Linkage::Internal => false,
        Linkage::None => false,
    }
}

// What has a fault is no type.
pub(crate) fn is_type(ty: &CType) -> bool
    ensures { result ≡ spec.is_type ty.now }
{
    match ty.node() {
        Node::Void => true,
        Node::Basic(_) => true,
        Node::Enumerated(_) => true,
        Node::Tagged(_) => true,
        Node::Pointer(_, _) => true,
        Node::Array(_, _, _) => true,
        Node::Function(_, _, _) => true,
        Node::Bad => false,
    }
}
