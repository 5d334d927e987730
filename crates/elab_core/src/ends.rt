// The first and the last token of a part of a tree.
ghost use Rattle.std.specs.Prelude.{◌≡◌};
ghost use Rattle.elab_core.specs.Ends as spec;
ghost use Rattle.tree_data.specs.Seen as seen;
ghost use Rattle.tree_data.specs.Seen.{tree_of, declarator_of, specs_of};
ghost use Rattle.tree_data.specs.Trees as trees;

use elab_state::first_number;
use tree_data::{
    Braces, Choice, Declarator, Enumeration, Expr, Group, Prefix, Specifier, Specs, Suffix,
};

fn last_number(numbers: &[u32]) -> u32
    ensures { result ≡ spec.last_number numbers.now }
{
    match numbers.split_last() {
        Some((last, _)) => *last,
        None => 0,
    }
}

fn prefix_begins(prefix: &Prefix) -> u32
    ensures { result ≡ spec.front_begins (seen.prefix_of prefix.now) }
{
    match prefix {
        Prefix::Operator(at) => *at,
        Prefix::Cast(opening, _, _) => *opening,
    }
}

fn prefixes_begin(prefixes: &Vec<Prefix>) -> u32
    ensures { result ≡ spec.first_front (trees.fronts (seen.prefixes_of prefixes.now.items) trees.None_before) }
{
    match prefixes.first() {
        Some(prefix) => prefix_begins(prefix),
        None => 0,
    }
}

/// The first token of an expression.
#[cycle(first)]
pub fn first_of(expr: &Expr) -> u32
    ensures { result ≡ spec.first_of (tree_of expr.now) }
{
    match expr {
        Expr::Name(at) => *at,
        Expr::Constant(at) => *at,
        Expr::Text(pieces) => first_number(pieces.as_slice()),
        Expr::Paren(opening, _, _) => *opening,
        Expr::Postfix(first, _) => first_of(first),
        Expr::Unary(prefixes, _) => prefixes_begin(prefixes),
        Expr::OfType(keyword, _, _, _) => *keyword,
        Expr::Binary(first, _) => first_of(first),
        Expr::Conditional(choices, _) => choices_begin(choices),
        Expr::Assign(places, _) => places_begin(places),
        Expr::Compound(opening, _, _, _) => *opening,
        Expr::Generic(keyword, _, _, _, _) => *keyword,
        Expr::Offset(keyword, _, _, _, _, _, _) => *keyword,
    }
}

#[cycle(first)]
fn choice_begins(choice: &Choice) -> u32
    ensures { result ≡ spec.front_begins (seen.front_of choice.now) }
{
    first_of(&choice.test)
}

#[cycle(first)]
fn choices_begin(choices: &Vec<Choice>) -> u32
    ensures { result ≡ spec.first_front (trees.fronts (seen.choices_of choices.now.items) trees.None_before) }
{
    match choices.first() {
        Some(choice) => choice_begins(choice),
        None => 0,
    }
}

#[cycle(first)]
fn places_begin(places: &Vec<(Expr, u32)>) -> u32
    ensures { result ≡ spec.first_front (trees.fronts (seen.lefts_of places.now.items) trees.None_before) }
{
    match places.first() {
        Some((place, _)) => first_of(place),
        None => 0,
    }
}

/// The last token of an expression.
#[cycle(last)]
pub(crate) fn last_of(expr: &Expr) -> u32
    ensures { result ≡ spec.last_of (tree_of expr.now) }
{
    match expr {
        Expr::Name(at) => *at,
        Expr::Constant(at) => *at,
        Expr::Text(pieces) => last_number(pieces.as_slice()),
        Expr::Paren(_, _, closing) => *closing,
        Expr::Postfix(_, more) => suffixes_end(more),
        Expr::Unary(_, operand) => last_of(operand),
        Expr::OfType(_, _, _, closing) => *closing,
        Expr::Binary(_, more) => operands_end(more),
        Expr::Conditional(_, last) => last_of(last),
        Expr::Assign(_, value) => last_of(value),
        Expr::Compound(_, _, _, list) => braces_end(list),
        Expr::Generic(_, _, _, _, closing) => *closing,
        Expr::Offset(_, _, _, _, _, _, closing) => *closing,
    }
}

fn suffix_ends(suffix: &Suffix) -> u32
    ensures { result ≡ spec.behind_ends (seen.behind_of suffix.now) }
{
    match suffix {
        Suffix::Index(_, _, closing) => *closing,
        Suffix::Call(_, closing) => *closing,
        Suffix::CallWith(_, _, _, closing) => *closing,
        Suffix::Member(_, name) => *name,
        Suffix::Step(at) => *at,
    }
}

fn suffixes_end(suffixes: &Vec<Suffix>) -> u32
    ensures { result ≡ spec.last_behind (trees.behinds (seen.suffixes_of suffixes.now.items) trees.None_behind) }
{
    match suffixes.as_slice().split_last() {
        Some((suffix, _)) => suffix_ends(suffix),
        None => 0,
    }
}

#[cycle(last)]
fn operands_end(more: &Vec<(u32, Expr)>) -> u32
    ensures { result ≡ spec.last_behind (trees.behinds (seen.operands_of more.now.items) trees.None_behind) }
{
    match more.as_slice().split_last() {
        Some((pair, _)) => last_of(&pair.1),
        None => 0,
    }
}

fn braces_end(list: &Braces) -> u32
    ensures { result ≡ spec.braces_end (seen.braces_of list.now) }
{
    list.closing
}

fn enumeration_begins(list: &Enumeration) -> u32
    ensures { result ≡ spec.specifying_begins (seen.enumeration_of list.now) }
{
    list.keyword
}

fn specifier_begins(specifier: &Specifier) -> u32
    ensures { result ≡ spec.specifying_begins (seen.specifier_of specifier.now) }
{
    match specifier {
        Specifier::Word(at) => *at,
        Specifier::TypedefName(at) => *at,
        Specifier::Tag(keyword, _) => *keyword,
        Specifier::Atomic(keyword, _, _, _) => *keyword,
        Specifier::AlignedAs(keyword, _, _, _) => *keyword,
        Specifier::Aligned(keyword, _, _, _) => *keyword,
        Specifier::Members(keyword, _, _, _, _) => *keyword,
        Specifier::Enumerators(list) => enumeration_begins(list),
    }
}

fn specifiers_begin(specifiers: &Vec<Specifier>) -> u32
    ensures { result ≡ spec.specifiers_begin (trees.specifyings (seen.specifiers_of specifiers.now.items) trees.No_specifiers) }
{
    match specifiers.first() {
        Some(specifier) => specifier_begins(specifier),
        None => 0,
    }
}

/// The first token of a list of specifiers.
pub(crate) fn specs_begin(specs: &Specs) -> u32
    ensures { result ≡ spec.specifiers_begin (specs_of specs.now) }
{
    specifiers_begin(&specs.specifiers)
}

#[cycle(names)]
fn group_name(group: &Group) -> Option<u32>
    ensures { result ≡ spec.group_name (seen.group_of group.now) }
{
    match group {
        Group::NoGroup => None,
        Group::Named(at) => Some(*at),
        Group::Grouped(_, inner, _) => name_of(inner),
    }
}

/// The name that a declarator declares.
#[cycle(names)]
pub(crate) fn name_of(declarator: &Declarator) -> Option<u32>
    ensures { result ≡ spec.name_of (declarator_of declarator.now) }
{
    group_name(&declarator.group)
}

/// The token on which a fault of a declarator falls: its name, or the first token of the specifiers in front of it.
pub(crate) fn place_of(specs: &Specs, declarator: &Declarator) -> u32
    ensures { result ≡ spec.place_of (specs_of specs.now) (declarator_of declarator.now) }
{
    place_behind(specs_begin(specs), declarator)
}

/// The same, where the specifiers begin at the token `begins`.
pub(crate) fn place_behind(begins: u32, declarator: &Declarator) -> u32
    ensures { result ≡ spec.place_behind begins (declarator_of declarator.now) }
{
    match name_of(declarator) {
        Some(at) => at,
        None => begins,
    }
}
