// Declaration specifiers and qualifiers (ISO C11 6.7.1 to 6.7.4), one after another, and the type that they specify.
ghost use Rattle.std.specs.Prelude.{◌≡◌, IfOk, OnOk, option_map};
ghost use Rattle.elab_core.specs.Specifiers as spec;
ghost use Rattle.elab_core.specs.Ties.{shown_kind};

use crate::kinds::{Base, Kind, Sign, Size, combined, with_base, with_long, with_short, with_sign};
use crate::qualified::{both_quals, own_quals, qualified};
use crate::shapes::{Gathered, Typed};
use decl_rules::Storage;
use elab_state::{Made, Word, fault_at, leave_out};
use head_rules::{Alignment, Specified};
use shared_list::Listing;
use std::alloc::{AllocError, Global};
use type_data::{CType, Fault, Node, Qual};
use type_rel::UNQUALIFIED;

pub(crate) fn no_type() -> Typed
    ensures { result ≡ spec.no_type }
{
    Typed {
        ty: CType::of(Node::Bad),
        qual: UNQUALIFIED,
    }
}

/// Nothing yet.
pub fn nothing() -> Gathered
    ensures { result ≡ spec.nothing }
{
    Gathered {
        base: Base::None,
        size: Size::None,
        sign: Sign::None,
        other: None,
        clashes: false,
        faulty: false,
        qual: UNQUALIFIED,
        restrict_at: None,
        storage: Storage::None,
        storage_at: None,
        thread_at: None,
        inline: false,
        noreturn: false,
        function_at: None,
        align: Alignment::none(),
        specified: Specified::Other,
    }
}

fn first(had: Option<u32>, at: u32) -> Option<u32>
    ensures { result ≡ spec.first had at }
{
    match had {
        Some(_) => had,
        None => Some(at),
    }
}

fn add_base(gathered: &mut Gathered, base: Base)
    ensures { gathered.new ≡ spec.with_base_word base gathered.old }
{
    match with_base(gathered.base, base) {
        Some(base) => gathered.base = base,
        None => gathered.clashes = true,
    }
}

fn set_size(gathered: &mut Gathered, size: Option<Size>)
    ensures { gathered.new ≡ spec.with_new_size size gathered.old }
{
    match size {
        Some(size) => gathered.size = size,
        None => gathered.clashes = true,
    }
}

fn add_sign(gathered: &mut Gathered, sign: Sign)
    ensures { gathered.new ≡ spec.with_sign_word sign gathered.old }
{
    match with_sign(gathered.sign, sign) {
        Some(sign) => gathered.sign = sign,
        None => gathered.clashes = true,
    }
}

fn add_type(gathered: &mut Gathered, typed: Typed)
    ensures { gathered.new ≡ spec.with_other_type gathered.old.other typed gathered.old }
{
    if gathered.other.is_some() {
        drop(typed);
        gathered.clashes = true;
        return;
    }
    gathered.other = Some(typed);
}

/// Adds the type of a tag or typedef name; none where it has a fault.
pub fn add_other(gathered: &mut Gathered, other: Option<Typed>)
    ensures { gathered.new ≡ spec.with_other other gathered.old }
{
    match other {
        Some(typed) => add_type(gathered, typed),
        None => gathered.faulty = true,
    }
}

fn add_restrict(gathered: &mut Gathered, at: u32)
    ensures { gathered.new ≡ spec.with_restrict at gathered.old }
{
    gathered.qual.is_restrict = true;
    gathered.restrict_at = first(gathered.restrict_at, at);
}

pub(crate) fn is_unset(storage: Storage) -> bool
    ensures { result ≡ spec.is_unset storage }
{
    match storage {
        Storage::None => true,
        Storage::Typedef => false,
        Storage::Extern => false,
        Storage::Static => false,
        Storage::Auto => false,
        Storage::Register => false,
    }
}

fn may_join_thread(storage: Storage) -> bool
    ensures { result ≡ spec.may_join_thread storage }
{
    match storage {
        Storage::None => true,
        Storage::Extern => true,
        Storage::Static => true,
        Storage::Typedef => false,
        Storage::Auto => false,
        Storage::Register => false,
    }
}

fn several(
    alloc: Global,
    gathered: &mut Gathered,
    made: &mut Made,
    at: u32,
) -> Result<(), AllocError>
    ensures { OnOk result ((gathered.new, made.new) ≡ spec.several at gathered.old made.old) }
{
    made.faults.push(fault_at(alloc, 405, at))?;
    gathered.faulty = true;
    Ok(())
}

fn may_store(gathered: &Gathered, storage: Storage) -> bool
    ensures { result ≡ spec.may_store storage gathered.now }
{
    is_unset(gathered.storage) && (gathered.thread_at.is_none() || may_join_thread(storage))
}

fn add_storage(
    alloc: Global,
    gathered: &mut Gathered,
    made: &mut Made,
    storage: Storage,
    at: u32,
) -> Result<(), AllocError>
    ensures { OnOk result ((gathered.new, made.new) ≡ spec.with_storage storage at gathered.old made.old) }
{
    if may_store(gathered, storage) {
        gathered.storage = storage;
        gathered.storage_at = Some(at);
        return Ok(());
    }
    several(alloc, gathered, made, at)
}

fn may_be_thread(gathered: &Gathered) -> bool
    ensures { result ≡ spec.may_be_thread gathered.now }
{
    gathered.thread_at.is_none() && may_join_thread(gathered.storage)
}

fn add_thread(
    alloc: Global,
    gathered: &mut Gathered,
    made: &mut Made,
    at: u32,
) -> Result<(), AllocError>
    ensures { OnOk result ((gathered.new, made.new) ≡ spec.with_thread at gathered.old made.old) }
{
    if may_be_thread(gathered) {
        gathered.thread_at = Some(at);
        return Ok(());
    }
    several(alloc, gathered, made, at)
}

fn add_inline(gathered: &mut Gathered, at: u32)
    ensures { gathered.new ≡ spec.with_inline at gathered.old }
{
    gathered.inline = true;
    gathered.function_at = first(gathered.function_at, at);
}

fn add_noreturn(gathered: &mut Gathered, at: u32)
    ensures { gathered.new ≡ spec.with_noreturn at gathered.old }
{
    gathered.noreturn = true;
    gathered.function_at = first(gathered.function_at, at);
}

fn add_left_out(
    alloc: Global,
    gathered: &mut Gathered,
    made: &mut Made,
    what: &str,
    at: u32,
) -> Result<(), AllocError>
    ensures { OnOk result ((gathered.new, made.new) ≡ spec.without what.now at gathered.old made.old) }
{
    leave_out(alloc, made, what, at)?;
    gathered.faulty = true;
    Ok(())
}

/// Adds a keyword, which is the token `at`.
pub fn add_word(
    alloc: Global,
    gathered: &mut Gathered,
    made: &mut Made,
    word: Word,
    at: u32,
) -> Result<(), AllocError>
    ensures { OnOk result ((gathered.new, made.new) ≡ spec.with_word word at gathered.old made.old) }
{
    match word {
        Word::Void => {
            add_base(gathered, Base::Void);
            Ok(())
        }
        Word::Char => {
            add_base(gathered, Base::Char);
            Ok(())
        }
        Word::Int => {
            add_base(gathered, Base::Int);
            Ok(())
        }
        Word::Float => {
            add_base(gathered, Base::Float);
            Ok(())
        }
        Word::Double => {
            add_base(gathered, Base::Double);
            Ok(())
        }
        Word::Bool => {
            add_base(gathered, Base::Bool);
            Ok(())
        }
        Word::Short => {
            set_size(gathered, with_short(gathered.size));
            Ok(())
        }
        Word::Long => {
            set_size(gathered, with_long(gathered.size));
            Ok(())
        }
        Word::Signed => {
            add_sign(gathered, Sign::Signed);
            Ok(())
        }
        Word::Unsigned => {
            add_sign(gathered, Sign::Unsigned);
            Ok(())
        }
        Word::Const => {
            gathered.qual.is_const = true;
            Ok(())
        }
        Word::Restrict => {
            add_restrict(gathered, at);
            Ok(())
        }
        Word::Volatile => {
            gathered.qual.is_volatile = true;
            Ok(())
        }
        Word::Typedef => add_storage(alloc, gathered, made, Storage::Typedef, at),
        Word::Extern => add_storage(alloc, gathered, made, Storage::Extern, at),
        Word::Static => add_storage(alloc, gathered, made, Storage::Static, at),
        Word::Auto => add_storage(alloc, gathered, made, Storage::Auto, at),
        Word::Register => add_storage(alloc, gathered, made, Storage::Register, at),
        Word::ThreadLocal => add_thread(alloc, gathered, made, at),
        Word::Inline => {
            add_inline(gathered, at);
            Ok(())
        }
        Word::Noreturn => {
            add_noreturn(gathered, at);
            Ok(())
        }
        Word::Atomic => add_left_out(alloc, gathered, made, "_Atomic", at),
        Word::Complex => add_left_out(alloc, gathered, made, "_Complex", at),
        Word::Imaginary => add_left_out(alloc, gathered, made, "_Imaginary", at),
        Word::Other => Ok(()),
    }
}

fn has_words(gathered: &Gathered) -> bool
    ensures { result ≡ spec.has_words gathered.now }
{
    has_base(gathered.base) || (has_size(gathered.size) || has_sign(gathered.sign))
}

fn has_base(base: Base) -> bool
    ensures { result ≡ spec.has_base base }
{
    match base {
        Base::None => false,
        Base::Void => true,
        Base::Bool => true,
        Base::Char => true,
        Base::Int => true,
        Base::Float => true,
        Base::Double => true,
    }
}

fn has_size(size: Size) -> bool
    ensures { result ≡ spec.has_size size }
{
    match size {
        Size::None => false,
        Size::Short => true,
        Size::Long => true,
        Size::LongLong => true,
    }
}

fn has_sign(sign: Sign) -> bool
    ensures { result ≡ spec.has_sign sign }
{
    match sign {
        Sign::None => false,
        Sign::Signed => true,
        Sign::Unsigned => true,
    }
}

fn of_kind(kind: Kind) -> CType
    ensures { result ≡ shown_kind kind }
{
    match kind {
        Kind::Void => CType::of(Node::Void),
        Kind::Basic(basic) => CType::of(Node::Basic(basic)),
    }
}

fn of_words(kind: Option<Kind>) -> Option<Typed>
    ensures { result ≡ spec.of_words (option_map shown_kind kind) }
{
    match kind {
        Some(kind) => Some(Typed {
            ty: of_kind(kind),
            qual: UNQUALIFIED,
        }),
        None => None,
    }
}

fn by_other(gathered: &Gathered) -> Result<Option<Typed>, AllocError>
    ensures { IfOk result (λ t. t ≡ spec.by_other gathered.now.other gathered.now) }
{
    match &gathered.other {
        Some(typed) => {
            if has_words(gathered) {
                return Ok(None);
            }
            let typed = typed.share()?;
            Ok(Some(typed))
        }
        None => Ok(of_words(combined(gathered.base, gathered.size, gathered.sign))),
    }
}

fn specified(gathered: &Gathered) -> Result<Option<Typed>, AllocError>
    ensures { IfOk result (λ t. t ≡ spec.type_of gathered.now) }
{
    if gathered.clashes {
        return Ok(None);
    }
    by_other(gathered)
}

/// Whether it is a function type.
pub(crate) fn is_function(ty: &CType) -> bool
    ensures { result ≡ spec.is_function ty.now }
{
    match ty.node() {
        Node::Function(_, _, _) => true,
        Node::Void => false,
        Node::Basic(_) => false,
        Node::Enumerated(_) => false,
        Node::Tagged(_) => false,
        Node::Pointer(_, _) => false,
        Node::Array(_, _, _) => false,
        Node::Bad => false,
    }
}

fn may_restrict(ty: &CType) -> bool
    ensures { result ≡ spec.may_restrict ty.now }
{
    match ty.node() {
        Node::Pointer(to, _) => !is_function(to),
        Node::Array(of, _, _) => may_restrict(of),
        Node::Bad => true,
        Node::Void => false,
        Node::Basic(_) => false,
        Node::Enumerated(_) => false,
        Node::Tagged(_) => false,
        Node::Function(_, _, _) => false,
    }
}

/// Notes a fault that prints a type.
pub(crate) fn note_type(
    alloc: Global,
    made: &mut Made,
    rule: u16,
    at: u32,
    ty: CType,
) -> Result<(), AllocError>
    ensures { OnOk result (made.new ≡ spec.type_fault rule at ty made.old) }
{
    let types = vec![in alloc; ty]?;
    made.faults.push(Fault {
        rule,
        at,
        names: Listing::from_vec(Vec::new(alloc)),
        types: Listing::from_vec(types),
    })?;
    Ok(())
}

fn with_quals(alloc: Global, qual: Qual, typed: Typed) -> Result<Typed, AllocError>
    ensures { IfOk result (λ t. t ≡ spec.with_quals qual typed) }
{
    let own = own_quals(&typed.ty, both_quals(typed.qual, qual));
    let Ok(ty) = qualified(alloc, &typed.ty, qual) else {
        drop(typed);
        return Err(AllocError);
    };
    drop(typed);
    Ok(Typed { ty, qual: own })
}

fn restricted(
    alloc: Global,
    made: &mut Made,
    at: Option<u32>,
    qual: Qual,
    typed: Typed,
) -> Result<Typed, AllocError>
    ensures { IfOk result (λ t. (t, made.new) ≡ spec.restricted at qual typed made.old) }
{
    match at {
        Some(at) => {
            if may_restrict(&typed.ty) {
                return with_quals(alloc, qual, typed);
            }
            note_type(alloc, made, 415, at, typed.ty)?;
            Ok(no_type())
        }
        None => with_quals(alloc, qual, typed),
    }
}

/// The type that specifiers specify, of which the token `at` is the first. What has a fault has no type; the fault is noted.
pub fn settled(
    alloc: Global,
    made: &mut Made,
    at: u32,
    gathered: &Gathered,
) -> Result<Typed, AllocError>
    ensures { IfOk result (λ t. (t, made.new) ≡ spec.settled at gathered.now made.old) }
{
    if gathered.faulty || gathered.align.faulty {
        return Ok(no_type());
    }
    match specified(gathered)? {
        Some(typed) => restricted(alloc, made, gathered.restrict_at, gathered.qual, typed),
        None => {
            made.faults.push(fault_at(alloc, 407, at))?;
            Ok(no_type())
        }
    }
}
