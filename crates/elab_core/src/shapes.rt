// What is known of specifiers, declarators and initializers while they are read.
ghost use Rattle.std.specs.Prelude.{◌≡◌, IfOk};

use crate::kinds::{Base, Sign, Size};
use decl_rules::Storage;
use head_rules::{Alignment, Specified};
use init_rules::InitState;
use std::alloc::AllocError;
use type_data::{CType, Extent, Params, Proto, Qual};

/// A type with its own qualifiers.
#[derive(Drop)]
pub struct Typed {
    pub ty: CType,
    pub qual: Qual,
}

/// What was read of declaration specifiers, or of qualifiers.
#[derive(Drop)]
pub struct Gathered {
    pub base: Base,
    pub size: Size,
    pub sign: Sign,
    /// The type of a tag or typedef name.
    pub other: Option<Typed>,
    /// Type specifiers don't combine.
    pub clashes: bool,
    /// It has a fault, which was told.
    pub faulty: bool,
    pub qual: Qual,
    /// The first `restrict`.
    pub restrict_at: Option<u32>,
    pub storage: Storage,
    pub storage_at: Option<u32>,
    pub thread_at: Option<u32>,
    pub inline: bool,
    pub noreturn: bool,
    /// The first function specifier.
    pub function_at: Option<u32>,
    pub align: Alignment,
    /// The last tag among them, as a declaration without a declarator asks.
    pub specified: Specified,
}

/// What a part of a declarator derives.
#[derive(Drop)]
pub enum Step {
    /// It has a fault, which was told.
    Bad,
    /// A pointer with these qualifiers, and its first `restrict`.
    Pointer(Qual, Option<u32>),
    /// An array: its `[`, the qualifiers in its brackets, whether these or `static` stand there, and its size.
    Array(u32, Qual, bool, Extent),
    Function(Params, Proto),
}

/// An initializer that is read.
#[derive(Drop)]
pub struct Filling {
    pub state: InitState,
    /// It has a fault, which was told.
    pub faulty: bool,
}

impl Typed {
    /// The same, whose type is shared. It takes no memory, but may be refused where that is shared 2^64 times.
    pub fn share(&self) -> Result<Typed, AllocError>
        ensures { IfOk result (λ copy. copy ≡ self.now) }
    {
        let ty = self.ty.share()?;
        Ok(Typed {
            ty,
            qual: self.qual,
        })
    }
}
