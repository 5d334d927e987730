// Declarations (ISO C11 6.7, 6.7.10, 6.9), of a file or of a block. Over the recursion; no member of its cycle.
ghost use Rattle.std.specs.Prelude.{◌≡◌, is_some, Some, IfOk, OnOk, option_map};
ghost use Rattle.elab_core.specs.Declarations as spec;
ghost use Rattle.elab_core.specs.Declarators as row;
ghost use Rattle.elab_core.specs.Ends.{name_of as own_name, specifiers_begin};
ghost use Rattle.elab_core.specs.Expressions as judging;
ghost use Rattle.elab_state.specs.Comes.{Comes, Leads};
ghost use Rattle.elab_state.specs.Doings.{scope_kind};
ghost use Rattle.elab_state.specs.Seen.{context_of, told_of};
ghost use Rattle.tree_data.specs.Heads.{declared_of, declared_one, heading_of};
ghost use Rattle.tree_data.specs.Seen as seen;
ghost use Rattle.tree_data.specs.Trees as trees;

use crate::alone::declare_tag;
use crate::bodies::{asserted, based, derived_by};
use crate::braces::initial;
use crate::declarators::{
    begin_init, decl_parts, declare_name, end_init, is_extern, places, stated,
};
use crate::ends::{name_of, specs_begin};
use crate::notes::note;
use crate::operators::keyword_kind;
use crate::shapes::{Filling, Gathered, Typed};
use crate::specifiers::{is_function, no_type};
use decl_rules::{DeclParts, Storage};
use elab_state::{Around, Grown, Halt, Made, Where, spelling};
use head_rules::{BareParts, bare_declaration};
use scope_tables::{Entity, Stated};
use std::alloc::{AllocError, Global};
use tree_data::{Assertion, Declarator, Head, Init, Specifier, Specs};
use type_data::TagKind;
use type_rel::is_bad;

/// What a declaration states, as far as a file and a `for` ask. Tokens are numbered as trees number them, but those of what it states at file
/// scope, which have their numbers in the item.
#[derive(Drop)]
pub struct Declaration {
    /// Its first token.
    pub first: u32,
    pub storage: Storage,
    /// The token of the storage class, where there is one.
    pub storage_at: Option<u32>,
    /// That of `_Thread_local`, where it stands there.
    pub thread: Option<u32>,
    /// Its specifiers have `inline`, and no `extern` (6.7.4p7).
    pub inline: bool,
    /// Whether one of its declarators declares a function.
    pub function: bool,
    /// The objects and functions that it names at file scope, a declarator after the other.
    pub stated: Grown<Stated>,
}

// What its declarators tell so far.
#[derive(Drop)]
pub(crate) struct Walked {
    pub(crate) stated: Grown<Stated>,
    pub(crate) function: bool,
}

const EVALUATED: Where = Where {
    counted: true,
    defining: false,
};

fn declaring(body: bool) -> Where
    ensures { result ≡ spec.declaring body }
{
    Where {
        counted: true,
        defining: body,
    }
}

fn add_stated(all: &mut Grown<Stated>, one: Option<Stated>) -> Result<(), AllocError>
    ensures { OnOk result (all.new ≡ spec.with_stated one all.old) }
{
    match one {
        Some(one) => all.push(one),
        None => Ok(()),
    }
}

fn add_declarator(
    around: &Around<'_>,
    walked: &mut Walked,
    decl: &DeclParts,
    entity: &Option<Entity>,
) -> Result<(), AllocError>
    ensures { OnOk result (walked.new ≡ spec.declarator_more (context_of around.now) decl.now entity.now walked.old) }
{
    let one = stated(around, decl, entity)?;
    add_stated(&mut walked.stated, one)?;
    walked.function = walked.function || is_function(&decl.ty);
    Ok(())
}

fn told(specs: &Specs, gathered: &Gathered, walked: Walked) -> Declaration
    ensures { result ≡ spec.told (seen.specs_of specs.now) gathered.now walked }
{
    Declaration {
        first: specs_begin(specs),
        storage: gathered.storage,
        storage_at: gathered.storage_at,
        thread: gathered.thread_at,
        inline: gathered.inline && !is_extern(gathered.storage),
        function: walked.function,
        stated: walked.stated,
    }
}

fn told_of_nothing(alloc: Global, first: u32) -> Declaration
    ensures { result ≡ spec.told_of_nothing first }
{
    Declaration {
        first,
        storage: Storage::None,
        storage_at: None,
        thread: None,
        inline: false,
        function: false,
        stated: Grown::new(alloc),
    }
}

fn if_auto(storage: Storage, at: Option<u32>) -> Option<u32>
    ensures { result ≡ spec.if_auto storage at }
{
    match storage {
        Storage::Auto => at,
        Storage::Register => at,
        Storage::None => None,
        Storage::Typedef => None,
        Storage::Extern => None,
        Storage::Static => None,
    }
}

// A declaration without a declarator.
fn bare(
    alloc: Global,
    made: &mut Made,
    specs: &Specs,
    gathered: &Gathered,
    typed: &Typed,
) -> Result<(), AllocError>
    ensures { OnOk result (made.new ≡ spec.bare (seen.specs_of specs.now) gathered.now typed.now made.old) }
{
    let parts = BareParts {
        specified: gathered.specified,
        faulty: is_bad(&typed.ty),
        scope: made.kind(),
        at: specs_begin(specs),
        storage_at: if_auto(gathered.storage, gathered.storage_at),
        function_at: gathered.function_at,
    };
    note(made, bare_declaration(alloc, parts))
}

fn fill(
    alloc: Global,
    around: &Around<'_>,
    made: &mut Made,
    init: &Init,
    entity: &Option<Entity>,
) -> Result<Filling, Halt>
    ensures { Comes (told_of around.now) (spec.filled (context_of around.now) (seen.initial_of init.now) entity.now made.old) (λ f. f) result made.new }
{
    let mut filling = match begin_init(alloc, around, made, entity) {
        Ok(filling) => filling,
        Err(halt) => return Err(halt),
    };
    match initial(alloc, around, EVALUATED, made, &mut filling, init) {
        Ok(()) => Ok(filling),
        Err(halt) => {
            drop(filling);
            Err(halt)
        }
    }
}

fn initialize_by(
    alloc: Global,
    around: &Around<'_>,
    made: &mut Made,
    init: &Init,
    entity: Option<Entity>,
) -> Result<(), Halt>
    ensures { Leads (told_of around.now) (spec.initialized_by (context_of around.now) (Some (seen.initial_of init.now)) entity made.old) result made.new }
{
    let filling = match fill(alloc, around, made, init, &entity) {
        Ok(filling) => filling,
        Err(halt) => {
            drop(entity);
            return Err(halt);
        }
    };
    match end_init(alloc, made, entity, &filling) {
        Ok(()) => {
            drop(filling);
            Ok(())
        }
        Err(_) => {
            drop(filling);
            Err(Halt::NoMemory)
        }
    }
}

fn initialize(
    alloc: Global,
    around: &Around<'_>,
    made: &mut Made,
    init: &Option<Init>,
    entity: Option<Entity>,
) -> Result<(), Halt>
    ensures { Leads (told_of around.now) (spec.initialized_by (context_of around.now) (option_map seen.initial_of init.now) entity made.old) result made.new }
{
    match init {
        Some(init) => initialize_by(alloc, around, made, init, entity),
        None => {
            drop(entity);
            Ok(())
        }
    }
}

// What a declarator tells, and then its initializer.
fn end_declarator(
    alloc: Global,
    around: &Around<'_>,
    made: &mut Made,
    walked: &mut Walked,
    decl: &DeclParts,
    init: &Option<Init>,
    entity: Option<Entity>,
) -> Result<(), Halt>
    ensures { Comes (told_of around.now) (spec.with_initial (context_of around.now) (option_map seen.initial_of init.now) decl.now walked.old entity made.old) (λ _. walked.new) result made.new }
{
    let Ok(()) = add_declarator(around, walked, decl, &entity) else {
        drop(entity);
        return Err(Halt::NoMemory);
    };
    match initialize(alloc, around, made, init, entity) {
        Ok(()) => Ok(()),
        Err(halt) => Err(halt),
    }
}

fn declare_at(
    alloc: Global,
    around: &Around<'_>,
    made: &mut Made,
    specs: &Specs,
    gathered: &Gathered,
    decl: &DeclParts,
) -> Result<Option<Entity>, Halt>
    ensures { Comes (told_of around.now) (row.declarator (context_of around.now) (row.places (specifiers_begin (seen.specs_of specs.now)) gathered.now) decl.now.at decl.now made.old) (λ e. e) result made.new }
{
    let places = places(specs_begin(specs), gathered);
    declare_name(alloc, around, made, places, decl.at, decl)
}

fn declare_as(
    alloc: Global,
    around: &Around<'_>,
    made: &mut Made,
    walked: &mut Walked,
    specs: &Specs,
    gathered: &Gathered,
    init: &Option<Init>,
    decl: &DeclParts,
) -> Result<(), Halt>
    ensures { Comes (told_of around.now) (spec.declared_as (context_of around.now) (seen.specs_of specs.now) gathered.now (option_map seen.initial_of init.now) decl.now walked.old made.old) (λ _. walked.new) result made.new }
{
    let entity = match declare_at(alloc, around, made, specs, gathered, decl) {
        Ok(entity) => entity,
        Err(halt) => return Err(halt),
    };
    end_declarator(alloc, around, made, walked, decl, init, entity)
}

fn has_init(init: &Option<Init>) -> bool
    ensures { result ≡ is_some (option_map seen.initial_of init.now) }
{
    match init {
        Some(_) => true,
        None => false,
    }
}

// What a function definition's declarator lists is told behind it.
fn has_list(made: &Made) -> bool
    ensures { result ≡ is_some made.now.params }
{
    match &made.params {
        Some(_) => true,
        None => false,
    }
}

fn parts(
    alloc: Global,
    around: &Around<'_>,
    made: &Made,
    gathered: &Gathered,
    body: bool,
    init: &Option<Init>,
    at: u32,
    typed: Typed,
) -> Result<DeclParts, AllocError>
    ensures { IfOk result (λ d. d ≡ row.parts (context_of around.now) gathered.now at typed (is_some (option_map seen.initial_of init.now)) body (is_some made.now.params) (scope_kind made.now)) }
{
    let init = has_init(init);
    let list = has_list(made);
    decl_parts(
        alloc,
        around,
        gathered,
        at,
        typed,
        init,
        body,
        list,
        made.kind(),
    )
}

fn declare_named(
    alloc: Global,
    around: &Around<'_>,
    made: &mut Made,
    walked: &mut Walked,
    specs: &Specs,
    gathered: &Gathered,
    body: bool,
    init: &Option<Init>,
    own: Option<u32>,
    typed: Typed,
) -> Result<(), Halt>
    ensures { Comes (told_of around.now) (spec.named (context_of around.now) (seen.specs_of specs.now) gathered.now body (option_map seen.initial_of init.now) own typed walked.old made.old) (λ _. walked.new) result made.new }
{
    let Some(at) = own else {
        drop(typed);
        return Ok(());
    };
    let Ok(decl) = parts(alloc, around, made, gathered, body, init, at, typed) else {
        return Err(Halt::NoMemory);
    };
    let done = declare_as(alloc, around, made, walked, specs, gathered, init, &decl);
    drop(decl);
    done
}

fn derive(
    alloc: Global,
    around: &Around<'_>,
    made: &mut Made,
    body: bool,
    specs: &Specs,
    typed: &Typed,
    of: &Declarator,
) -> Result<Typed, Halt>
    ensures { Comes (told_of around.now) (judging.derived_by (context_of around.now) (spec.declaring body) (specifiers_begin (seen.specs_of specs.now)) typed.now (seen.declarator_of of.now) made.old) (λ t. t) result made.new }
{
    derived_by(
        alloc,
        around,
        declaring(body),
        made,
        specs_begin(specs),
        typed,
        of,
    )
}

fn declare_derived(
    alloc: Global,
    around: &Around<'_>,
    made: &mut Made,
    walked: &mut Walked,
    specs: &Specs,
    gathered: &Gathered,
    body: bool,
    pair: &(Declarator, Option<Init>),
    typed: Typed,
) -> Result<(), Halt>
    ensures { Comes (told_of around.now) (spec.named (context_of around.now) (seen.specs_of specs.now) gathered.now body (declared_one pair.now).1 (own_name (declared_one pair.now).0) typed walked.old made.old) (λ _. walked.new) result made.new }
{
    let own = name_of(&pair.0);
    declare_named(
        alloc, around, made, walked, specs, gathered, body, &pair.1, own, typed,
    )
}

fn declare_one(
    alloc: Global,
    around: &Around<'_>,
    made: &mut Made,
    walked: &mut Walked,
    specs: &Specs,
    gathered: &Gathered,
    typed: &Typed,
    body: bool,
    pair: &(Declarator, Option<Init>),
) -> Result<(), Halt>
    ensures { Comes (told_of around.now) (spec.one (context_of around.now) (seen.specs_of specs.now) gathered.now typed.now body (declared_one pair.now) walked.old made.old) (λ _. walked.new) result made.new }
{
    let own = match derive(alloc, around, made, body, specs, typed, &pair.0) {
        Ok(own) => own,
        Err(halt) => return Err(halt),
    };
    declare_derived(
        alloc, around, made, walked, specs, gathered, body, pair, own,
    )
}

fn declare_all(
    alloc: Global,
    around: &Around<'_>,
    made: &mut Made,
    walked: &mut Walked,
    specs: &Specs,
    gathered: &Gathered,
    typed: &Typed,
    body: bool,
    pairs: &[(Declarator, Option<Init>)],
) -> Result<(), Halt>
    ensures { Comes (told_of around.now) (spec.all (context_of around.now) (seen.specs_of specs.now) gathered.now typed.now body (declared_of pairs.now) walked.old made.old) (λ _. walked.new) result made.new }
{
    let mut rest = pairs;
    'pairs: while let Some((pair, others)) = rest.split_first() {
        match declare_one(
            alloc, around, made, walked, specs, gathered, typed, body, pair,
        ) {
            Ok(()) => (),
            Err(halt) => return Err(halt),
        }
        rest = others;
    }
    Ok(())
}

// 6.7p2: what has no declarator declares a tag or enumerators.
fn check_bare(
    alloc: Global,
    made: &mut Made,
    specs: &Specs,
    gathered: &Gathered,
    typed: &Typed,
    pairs: &[(Declarator, Option<Init>)],
) -> Result<(), AllocError>
    ensures { OnOk result (made.new ≡ spec.without (seen.specs_of specs.now) gathered.now typed.now (declared_of pairs.now) made.old) }
{
    match pairs.first() {
        Some(_) => Ok(()),
        None => bare(alloc, made, specs, gathered, typed),
    }
}

fn no_declarator(alloc: Global) -> Walked
    ensures { result ≡ spec.no_declarator }
{
    Walked {
        stated: Grown::new(alloc),
        function: false,
    }
}

fn walk_from(
    alloc: Global,
    around: &Around<'_>,
    made: &mut Made,
    walked: Walked,
    specs: &Specs,
    gathered: &Gathered,
    typed: &Typed,
    body: bool,
    pairs: &[(Declarator, Option<Init>)],
) -> Result<Declaration, Halt>
    ensures { Comes (told_of around.now) (spec.walked_from (context_of around.now) (seen.specs_of specs.now) (declared_of pairs.now) body gathered.now typed.now walked made.old) (λ d. d) result made.new }
{
    let mut walked = walked;
    match declare_all(
        alloc,
        around,
        made,
        &mut walked,
        specs,
        gathered,
        typed,
        body,
        pairs,
    ) {
        Ok(()) => Ok(told(specs, gathered, walked)),
        Err(halt) => Err(halt),
    }
}

fn walk(
    alloc: Global,
    around: &Around<'_>,
    made: &mut Made,
    specs: &Specs,
    gathered: &Gathered,
    typed: &Typed,
    body: bool,
    pairs: &[(Declarator, Option<Init>)],
) -> Result<Declaration, Halt>
    ensures { Comes (told_of around.now) (spec.walked (context_of around.now) (seen.specs_of specs.now) (declared_of pairs.now) body gathered.now typed.now made.old) (λ d. d) result made.new }
{
    let walked = no_declarator(alloc);
    walk_from(
        alloc, around, made, walked, specs, gathered, typed, body, pairs,
    )
}

fn declare_declarators(
    alloc: Global,
    around: &Around<'_>,
    made: &mut Made,
    specs: &Specs,
    gathered: &Gathered,
    typed: &Typed,
    body: bool,
    pairs: &[(Declarator, Option<Init>)],
) -> Result<Declaration, Halt>
    ensures { Comes (told_of around.now) (spec.declarators (context_of around.now) (seen.specs_of specs.now) (declared_of pairs.now) body gathered.now typed.now made.old) (λ d. d) result made.new }
{
    let Ok(()) = check_bare(alloc, made, specs, gathered, typed, pairs) else {
        return Err(Halt::NoMemory);
    };
    walk(alloc, around, made, specs, gathered, typed, body, pairs)
}

fn is_barred(storage: Storage) -> bool
    ensures { result ≡ spec.is_barred storage }
{
    match storage {
        Storage::Static => true,
        Storage::Extern => true,
        Storage::Typedef => true,
        Storage::None => false,
        Storage::Auto => false,
        Storage::Register => false,
    }
}

// 6.8.5p3: what the first part of a `for` doesn't take is told for the whole of it, and nothing of its declarators.
fn typed_in(in_for: bool, gathered: &Gathered, typed: Typed) -> Typed
    ensures { result ≡ spec.typed_in in_for gathered.now typed }
{
    if in_for && (is_barred(gathered.storage) || gathered.thread_at.is_some()) {
        drop(typed);
        return no_type();
    }
    typed
}

// The declarators of a head, whose specifiers are these.
fn declare_listed(
    alloc: Global,
    around: &Around<'_>,
    in_for: bool,
    made: &mut Made,
    head: &Head,
    gathered: &Gathered,
    typed: Typed,
) -> Result<Declaration, Halt>
    ensures { Comes (told_of around.now) (spec.declarators (context_of around.now) (seen.specs_of head.now.specs) (declared_of head.now.declarators.items) head.now.has_body gathered.now (spec.typed_in in_for gathered.now typed) made.old) (λ d. d) result made.new }
{
    let typed = typed_in(in_for, gathered, typed);
    declare_declarators(
        alloc,
        around,
        made,
        &head.specs,
        gathered,
        &typed,
        head.has_body,
        head.declarators.as_slice(),
    )
}

fn declare_specified(
    alloc: Global,
    around: &Around<'_>,
    in_for: bool,
    made: &mut Made,
    head: &Head,
) -> Result<Declaration, Halt>
    ensures { Comes (told_of around.now) (spec.specified (context_of around.now) in_for (seen.specs_of head.now.specs) (declared_of head.now.declarators.items) head.now.has_body made.old) (λ d. d) result made.new }
{
    let (gathered, typed) = match based(alloc, around, EVALUATED, made, &head.specs) {
        Ok(done) => done,
        Err(halt) => return Err(halt),
    };
    declare_listed(alloc, around, in_for, made, head, &gathered, typed)
}

fn holds_alone(around: &Around<'_>, keyword: u32, at: u32) -> Option<(u32, u32)>
    ensures { result ≡ spec.holds_alone (context_of around.now) keyword at }
{
    match keyword_kind(spelling(around.tokens, keyword)) {
        TagKind::Struct => Some((keyword, at)),
        TagKind::Union => Some((keyword, at)),
        TagKind::Enum => None,
    }
}

fn tag_of(around: &Around<'_>, specifier: &Specifier) -> Option<(u32, u32)>
    ensures { result ≡ spec.tag_of (context_of around.now) (seen.specifier_of specifier.now) }
{
    match specifier {
        Specifier::Tag(keyword, at) => holds_alone(around, *keyword, *at),
        Specifier::Word(_) => None,
        Specifier::TypedefName(_) => None,
        Specifier::Atomic(_, _, _, _) => None,
        Specifier::AlignedAs(_, _, _, _) => None,
        Specifier::Aligned(_, _, _, _) => None,
        Specifier::Members(_, _, _, _, _) => None,
        Specifier::Enumerators(_) => None,
    }
}

fn if_alone(around: &Around<'_>, first: &Specifier, others: &[Specifier]) -> Option<(u32, u32)>
    ensures { result ≡ spec.only_tag (context_of around.now) (trees.Specifier_then (seen.specifier_of first.now) (trees.specifyings (seen.specifiers_of others.now) trees.No_specifiers)) }
{
    let Some(_) = others.first() else {
        return tag_of(around, first);
    };
    None
}

fn only_of(around: &Around<'_>, specifiers: &Vec<Specifier>) -> Option<(u32, u32)>
    ensures { result ≡ spec.only_tag (context_of around.now) (trees.specifyings (seen.specifiers_of specifiers.now.items) trees.No_specifiers) }
{
    let Some((first, others)) = specifiers.as_slice().split_first() else {
        return None;
    };
    if_alone(around, first, others)
}

fn only_tag(around: &Around<'_>, specs: &Specs) -> Option<(u32, u32)>
    ensures { result ≡ spec.only_tag (context_of around.now) (seen.specs_of specs.now) }
{
    only_of(around, &specs.specifiers)
}

// The tag that a declaration is alone.
fn lone_tag(around: &Around<'_>, head: &Head) -> Option<(u32, u32)>
    ensures { result ≡ spec.lone_tag (context_of around.now) (seen.specs_of head.now.specs) (declared_of head.now.declarators.items) }
{
    match head.declarators.as_slice().first() {
        Some(_) => None,
        None => only_tag(around, &head.specs),
    }
}

fn declare_alone(
    alloc: Global,
    around: &Around<'_>,
    made: &mut Made,
    keyword: u32,
    at: u32,
) -> Result<Declaration, Halt>
    ensures { Comes (told_of around.now) (spec.alone_told (context_of around.now) keyword at made.old) (λ d. d) result made.new }
{
    match declare_tag(alloc, around, made, keyword, at) {
        Ok(()) => Ok(told_of_nothing(alloc, keyword)),
        Err(halt) => Err(halt),
    }
}

fn declare(
    alloc: Global,
    around: &Around<'_>,
    in_for: bool,
    made: &mut Made,
    head: &Head,
) -> Result<Declaration, Halt>
    ensures { Comes (told_of around.now) (spec.declares (context_of around.now) in_for (seen.specs_of head.now.specs) (declared_of head.now.declarators.items) head.now.has_body (spec.lone_tag (context_of around.now) (seen.specs_of head.now.specs) (declared_of head.now.declarators.items)) made.old) (λ d. d) result made.new }
{
    match lone_tag(around, head) {
        Some((keyword, at)) => declare_alone(alloc, around, made, keyword, at),
        None => declare_specified(alloc, around, in_for, made, head),
    }
}

fn assert(
    alloc: Global,
    around: &Around<'_>,
    in_for: bool,
    made: &mut Made,
    assertion: &Assertion,
) -> Result<Declaration, Halt>
    ensures { Comes (told_of around.now) (spec.declaration (context_of around.now) in_for (trees.Asserts_of (seen.assertion_of assertion.now)) made.old) (λ d. d) result made.new }
{
    match asserted(alloc, around, EVALUATED, made, assertion) {
        Ok(()) => Ok(told_of_nothing(alloc, assertion.keyword)),
        Err(halt) => Err(halt),
    }
}

/// A declaration, or a static assertion, in the innermost scope, which is the file's or a block's: what its names denote from here on, and what
/// it states. `in_for` says that it is the first part of a `for`, whose storage class is told there: its declarators have none of the rules'
/// faults then (6.8.5p3). What is known of earlier items is asked for, one question at a time. Its faults are noted.
pub fn declare_in(
    alloc: Global,
    around: &Around<'_>,
    in_for: bool,
    made: &mut Made,
    head: &Head,
) -> Result<Declaration, Halt>
    ensures { Comes (told_of around.now) (spec.declaration (context_of around.now) in_for (heading_of head.now) made.old) (λ d. d) result made.new }
{
    match &head.assertion {
        Some(assertion) => assert(alloc, around, in_for, made, assertion),
        None => declare(alloc, around, in_for, made, head),
    }
}
