// An expression, or the name of a type, that takes all tokens.
ghost use Rattle.std.specs.Prelude.{◌≡◌, ◌≤◌, length, map, IfOk, IfErr, None};
ghost use Rattle.tree_data.specs.Seen.{tree_of, naming, type_of};
ghost use Rattle.tree_data.specs.Trees.{Tree, Naming};
ghost use Rattle.c_parser.specs.Brackets.{too_deep};
ghost use Rattle.c_parser.specs.Enumerations.{settle};
ghost use Rattle.c_parser.specs.Grammar.{IsMeaning, IsCause, ReadingIsUnique};
ghost use Rattle.c_parser.specs.Reading.{Reads, HoldsType, at_front, IsAtFront, IsRefused, IsDeep};
ghost use Rattle.c_parser.specs.TypeMeaning.{IsTypeMeaning, IsTypeCause, TypeReadingIsUnique};
ghost use Rattle.c_parser.specs.Tokens as spec;
ghost use Rattle.c_parser.specs.Words as words;
ghost use Rattle.c_parser.specs.Words.{first_among};
ghost use Rattle.c_parser.specs.Heads.{HoldsHead};
ghost use Rattle.c_parser.specs.HeadsFound.{IsHeadMeaning, IsHeadCause, HeadReadingIsUnique};
ghost use Rattle.tree_data.specs.Heads.{heading_of};
ghost use Rattle.tree_data.specs.Trees.{Heading};

use crate::answers::{ParseError, Stop};
use crate::brackets::too_deep;
use crate::expressions::{EXPRESSION, level};
use crate::heads::head;
use crate::kinds::Kind;
use crate::names::NameSet;
use crate::scope::{Kinds, Scope};
use crate::tokens::{hidden_of, kinds_of, words_of};
use crate::type_names::type_name;
use std::alloc::Global;
use tok_data::OutToken;
use tree_data::{Declarator, Expr, Head, Specs, TypeName};

// Where the parser stopped is not told: a fault falls on the first token.
fn at_front(stop: Stop) -> ParseError
    ensures { result ≡ at_front stop }
{
    match stop {
        Stop::Syntax(_) => ParseError::Syntax(0),
        Stop::NoMemory => ParseError::NoMemory,
    }
}

fn expression(alloc: Global, kinds: &Kinds<'_>) -> Result<Expr, ParseError>
    requires { length kinds.now ≤ 2000000 }
    ensures found { IfOk result (λ e. Reads kinds.now 1 (tree_of e) 0 (length kinds.now)) }
    ensures only { IfErr result (λ e. (t : Tree) → Reads kinds.now 1 t 0 (length kinds.now) → IsRefused e) }
    ensures place { IfErr result IsAtFront }
{
    let (expr, end) = match level(alloc, kinds, EXPRESSION, 0) {
        Ok(found) => found,
        Err(stop) => return Err(at_front(stop)),
    };
    if (end as usize) < kinds.len() {
        drop(expr);
        return Err(ParseError::Syntax(0));
    }
    Ok(expr)
}

fn whole(alloc: Global, kinds: &[Kind]) -> Result<Expr, ParseError>
    requires { length kinds.now ≤ 2000000 }
    ensures found { IfOk result (λ e. Reads (settle kinds.now 0) 1 (tree_of e) 0 (length (settle kinds.now 0))) }
    ensures only { IfErr result (λ e. (t : Tree) → Reads (settle kinds.now 0) 1 t 0 (length (settle kinds.now 0)) → IsRefused e) }
    ensures place { IfErr result IsAtFront }
{
    let Ok(view) = Kinds::new(alloc, kinds) else {
        return Err(ParseError::NoMemory);
    };
    match expression(alloc, &view) {
        Ok(expr) => Ok(expr),
        Err(error) => Err(error),
    }
}

// The kinds of the tokens, whose brackets nest no deeper than they may.
fn shallow_kinds(
    alloc: Global,
    tokens: &[OutToken],
    names: &NameSet,
) -> Result<Vec<Kind>, ParseError>
    requires { length tokens.now ≤ 2000000 }
    ensures kinds { IfOk result (λ v. v.items ≡ spec.spelled_kinds names.now tokens.now) }
    ensures shallow { IfOk result (λ v. too_deep v.items ≡ None) }
    ensures deep { IfErr result (λ e. IsDeep (spec.spelled_kinds names.now tokens.now) e) }
{
    let Ok(kinds) = kinds_of(alloc, tokens, names) else {
        return Err(ParseError::NoMemory);
    };
    if let Some(at) = too_deep(kinds.as_slice()) {
        return Err(ParseError::TooDeep(at));
    }
    Ok(kinds)
}

/// The one expression that the tokens spell, all of them (ISO C11 6.5), with `__offsetof ( type-name , member-designator )`,
/// which `offsetof` stands for (7.19), among the primary expressions. Of type names (6.7.7) those are that `parse_type_name` reads. An identifier among `names` is a typedef name, and `( name )` the front of a
/// cast or of a compound literal; it or a keyword is no expression, but it may be the name of a member or a tag. The tokens are at most 2,000,000.
///
/// Errors: TooDeep with the bracket that opens the 257th level, which is looked for first; Syntax(0) exactly where
/// no tree of the grammar spells the tokens and no bracket is too deep; NoMemory.
pub fn parse_expr(alloc: Global, tokens: &[OutToken], names: &NameSet) -> Result<Expr, ParseError>
    requires { length tokens.now ≤ 2000000 }
    ensures meaning { IfOk result (λ e. IsMeaning (spec.kinds_of names.now tokens.now) (tree_of e)) }
    ensures cause { IfErr result (λ e. IsCause (spec.kinds_of names.now tokens.now) e) }
{
    let kinds = match shallow_kinds(alloc, tokens, names) {
        Ok(kinds) => kinds,
        Err(error) => return Err(error),
    };
    match whole(alloc, kinds.as_slice()) {
        Ok(expr) => Ok(expr),
        Err(error) => Err(error),
    }
}

fn name_of_type(alloc: Global, kinds: &Kinds<'_>) -> Result<TypeName, ParseError>
    requires { length kinds.now ≤ 2000000 }
    ensures found { IfOk result (λ t. HoldsType kinds.now (type_of t) 0 (length kinds.now)) }
    ensures only { IfErr result (λ e. (t : Naming) → HoldsType kinds.now t 0 (length kinds.now) → IsRefused e) }
    ensures place { IfErr result IsAtFront }
{
    let (name, end) = match type_name(alloc, kinds, 0) {
        Ok(found) => found,
        Err(stop) => return Err(at_front(stop)),
    };
    if (end as usize) < kinds.len() {
        drop(name);
        return Err(ParseError::Syntax(0));
    }
    Ok(name)
}

fn whole_type(alloc: Global, kinds: &[Kind]) -> Result<TypeName, ParseError>
    requires { length kinds.now ≤ 2000000 }
    ensures found { IfOk result (λ t. HoldsType (settle kinds.now 0) (type_of t) 0 (length (settle kinds.now 0))) }
    ensures only { IfErr result (λ e. (t : Naming) → HoldsType (settle kinds.now 0) t 0 (length (settle kinds.now 0)) → IsRefused e) }
    ensures place { IfErr result IsAtFront }
{
    let Ok(view) = Kinds::new(alloc, kinds) else {
        return Err(ParseError::NoMemory);
    };
    match name_of_type(alloc, &view) {
        Ok(name) => Ok(name),
        Err(error) => Err(error),
    }
}

/// The one name of a type that the tokens spell, all of them (ISO C11 6.7.7): specifiers and qualifiers, and an abstract
/// declarator. Of specifiers its grammar has keywords, qualifiers, `_Atomic ( type-name )`, tags, structures and unions with members (6.7.2.1),
/// `enum` with enumerators (6.7.2.2) and, where no type specifier stands before it, a typedef name, which is an identifier among `names`; of
/// declarators it has pointers, parentheses, arrays and functions, and their parameters (6.7.6.3), which are such specifiers, storage classes,
/// function specifiers and alignments (6.7.5), and a declarator with a name or with none. An identifier among `names` is a parameter's name behind a type specifier of its own specifiers or a `*`, and
/// else its type (6.7.6.3p11). Behind a name, or a declarator in parentheses with a name in it, a list of identifiers that aren't among
/// `names` may stand in place of parameters (6.7.6). From the name of a parameter to the end of its list an identifier of the same text
/// is no typedef name (6.2.1), and none behind an enumerator of the same text either; so far no enumerator in a list of parameters may hide a typedef
/// name. The tokens are at most 2,000,000.
///
/// Cost: linear, but that the first name of a list of parameters that hides a typedef name takes a copy of a flag for each name among
/// `names` up to the last that is hidden.
///
/// Errors: TooDeep with the bracket that opens the 257th level, which is looked for first; Syntax(0) exactly where
/// no name of the grammar spells the tokens and no bracket is too deep; NoMemory.
pub fn parse_type_name(
    alloc: Global,
    tokens: &[OutToken],
    names: &NameSet,
) -> Result<(Specs, Declarator), ParseError>
    requires { length tokens.now ≤ 2000000 }
    ensures meaning { IfOk result (λ r. IsTypeMeaning (spec.kinds_of names.now tokens.now) (naming r.0 r.1)) }
    ensures cause { IfErr result (λ e. IsTypeCause (spec.kinds_of names.now tokens.now) e) }
{
    let kinds = match shallow_kinds(alloc, tokens, names) {
        Ok(kinds) => kinds,
        Err(error) => return Err(error),
    };
    match whole_type(alloc, kinds.as_slice()) {
        Ok(name) => Ok(name.into_parts()),
        Err(error) => Err(error),
    }
}

/// Unique reading of the names of types: no two spell the same tokens. It has nothing to run; its contract is the law.
pub fn type_reading_is_unique()
    ensures { TypeReadingIsUnique }
{}

/// Unique reading: no two trees of the grammar spell the same tokens. It has nothing to run; its contract is the law.
pub fn reading_is_unique()
    ensures { ReadingIsUnique }
{}

/// Unique reading of heads: no two are all the tokens of a list, whichever of its identifiers are typedef names. It has nothing to run; its contract
/// is the law.
pub fn head_reading_is_unique()
    ensures { HeadReadingIsUnique }
{}

// The kinds of a head's tokens, whose brackets nest no deeper than they may.
fn shallow_words(alloc: Global, tokens: &[OutToken]) -> Result<Vec<Kind>, ParseError>
    requires { length tokens.now ≤ 2000000 }
    ensures kinds { IfOk result (λ v. v.items ≡ map (spec.kind_of (first_among tokens.now)) tokens.now) }
    ensures shallow { IfOk result (λ v. too_deep v.items ≡ None) }
    ensures deep { IfErr result (λ e. IsDeep (map (spec.kind_of (first_among tokens.now)) tokens.now) e) }
{
    let Ok(kinds) = words_of(alloc, tokens) else {
        return Err(ParseError::NoMemory);
    };
    if let Some(at) = too_deep(kinds.as_slice()) {
        return Err(ParseError::TooDeep(at));
    }
    Ok(kinds)
}

/// What each token of an item is, with a number for each identifier, and of each number whether it is none of these names.
///
/// Errors: TooDeep with the bracket that opens the 257th level; NoMemory.
pub fn item_words(
    alloc: Global,
    tokens: &[OutToken],
    names: &NameSet,
) -> Result<(Vec<Kind>, Vec<bool>), ParseError>
    requires { length tokens.now ≤ 2000000 }
    ensures words { IfOk result (λ r. record { kinds = r.0.items; hidden = r.1.items } ≡ words.words_of names.now tokens.now) }
    ensures shallow { IfOk result (λ r. too_deep r.0.items ≡ None) }
    ensures deep { IfErr result (λ e. IsDeep (words.words_of names.now tokens.now).kinds e) }
{
    let kinds = match shallow_words(alloc, tokens) {
        Ok(kinds) => kinds,
        Err(error) => return Err(error),
    };
    let Ok(hidden) = hidden_of(alloc, tokens, names) else {
        return Err(ParseError::NoMemory);
    };
    Ok((kinds, hidden))
}

fn whole_head(alloc: Global, kinds: &[Kind], hidden: Vec<bool>) -> Result<Head, ParseError>
    requires { length kinds.now ≤ 2000000 }
    ensures found { IfOk result (λ h. HoldsHead (record { kinds = kinds.now; hidden = hidden.items }) (heading_of h) 0 (length kinds.now)) }
    ensures unique { IfOk result (λ h. (u : Heading) → HoldsHead (record { kinds = kinds.now; hidden = hidden.items }) u 0 (length kinds.now)
        → heading_of h ≡ u) }
    ensures only { IfErr result (λ e. (u : Heading) → HoldsHead (record { kinds = kinds.now; hidden = hidden.items }) u 0 (length kinds.now)
        → IsRefused e) }
    ensures place { IfErr result IsAtFront }
{
    let Ok(scope) = Scope::new(alloc, kinds, hidden) else {
        return Err(ParseError::NoMemory);
    };
    let (head, _, end) = match head(alloc, scope, 0) {
        Ok(found) => found,
        Err(stop) => return Err(at_front(stop)),
    };
    if (end as usize) < kinds.len() {
        drop(head);
        return Err(ParseError::Syntax(0));
    }
    Ok(head)
}

/// The one head that the tokens spell, all of them (ISO C11 6.7, 6.9): a declaration up to and with its `;`, a function's specifiers and
/// declarator up to and with the `{` of its body, or a static assertion (6.7.10). Specifiers and declarators are those that
/// `parse_type_name` has for parameters; a declarator has a name, which is declared for the tokens behind it: with `typedef` among the
/// specifiers it is a typedef name there, and else none (6.2.1). An identifier among `names` is a typedef name at first. At the front of a
/// declarator a `(` always begins a declarator in parentheses. The tokens are at most 2,000,000.
///
/// Errors: TooDeep with the bracket that opens the 257th level, which is looked for first; Syntax(0) exactly where
/// no head of the grammar spells the tokens and no bracket is too deep; NoMemory.
pub fn parse_head(alloc: Global, tokens: &[OutToken], names: &NameSet) -> Result<Head, ParseError>
    requires { length tokens.now ≤ 2000000 }
    ensures meaning { IfOk result (λ h. IsHeadMeaning (words.words_of names.now tokens.now) (heading_of h)) }
    ensures cause { IfErr result (λ e. IsHeadCause (words.words_of names.now tokens.now) e) }
{
    let kinds = match shallow_words(alloc, tokens) {
        Ok(kinds) => kinds,
        Err(error) => return Err(error),
    };
    let Ok(hidden) = hidden_of(alloc, tokens, names) else {
        return Err(ParseError::NoMemory);
    };
    match whole_head(alloc, kinds.as_slice(), hidden) {
        Ok(head) => Ok(head),
        Err(error) => Err(error),
    }
}
