// Trees as S-expressions.
use std::alloc::{AllocError, Global};
use tok_data::OutToken;
use tree_data::{
    Assertion, Association, Bound, Braces, Choice, Declarator, Deriving, Designator, Enumerator,
    Expr, Field, Group, Init, Member, Parameters, Piece, Prefix, Specifier, Specs, Suffix,
    TypeName,
};

fn spelling(tokens: &[OutToken], at: u32) -> &str {
    match tokens.get(at as usize) {
        Some(token) => token.spelling.as_str(),
        None => "",
    }
}

pub(crate) fn spell(out: &mut String, tokens: &[OutToken], at: u32) -> Result<(), AllocError> {
    out.push_str(spelling(tokens, at))
}

fn open_binary(out: &mut String, tokens: &[OutToken], operator: u32) -> Result<(), AllocError> {
    if spelling(tokens, operator) == "," {
        return out.push_str("(comma ");
    }
    out.push_str("(binary ")?;
    spell(out, tokens, operator)?;
    out.push_str(" ")
}

// The operators of a chain, the last first.
fn open_pairs(
    out: &mut String,
    tokens: &[OutToken],
    more: &[(u32, Expr)],
) -> Result<(), AllocError> {
    for pair in more.iter().rev() {
        open_binary(out, tokens, pair.0)?;
    }
    Ok(())
}

fn open_suffix(out: &mut String, tokens: &[OutToken], suffix: &Suffix) -> Result<(), AllocError> {
    match suffix {
        Suffix::Index(_, _, _) => out.push_str("(index "),
        Suffix::Call(_, _) | Suffix::CallWith(_, _, _, _) => out.push_str("(call "),
        Suffix::Member(operator, _) => match spelling(tokens, *operator) == "." {
            true => out.push_str("(dot "),
            false => out.push_str("(arrow "),
        },
        Suffix::Step(operator) => {
            out.push_str("(post ")?;
            spell(out, tokens, *operator)?;
            out.push_str(" ")
        }
    }
}

fn open_unary(out: &mut String, tokens: &[OutToken], operator: u32) -> Result<(), AllocError> {
    let text = spelling(tokens, operator);
    if text == "sizeof" {
        return out.push_str("(sizeof ");
    }
    if text == "++" || text == "--" {
        out.push_str("(pre ")?;
    } else {
        out.push_str("(unary ")?;
    }
    out.push_str(text)?;
    out.push_str(" ")
}

pub(crate) fn close(out: &mut String, count: usize) -> Result<(), AllocError> {
    for _ in 0..count {
        out.push_str(")")?;
    }
    Ok(())
}

pub(crate) fn show_text(
    out: &mut String,
    tokens: &[OutToken],
    pieces: &[u32],
) -> Result<(), AllocError> {
    out.push_str("(str")?;
    for piece in pieces {
        out.push_str(" ")?;
        spell(out, tokens, *piece)?;
    }
    out.push_str(")")
}

// Numbers of tokens, each with a space in front of it.
fn show_words(out: &mut String, tokens: &[OutToken], words: &[u32]) -> Result<(), AllocError> {
    for word in words {
        out.push_str(" ")?;
        spell(out, tokens, *word)?;
    }
    Ok(())
}

#[cycle(show)]
fn show_specifier(
    out: &mut String,
    tokens: &[OutToken],
    specifier: &Specifier,
) -> Result<(), AllocError> {
    match specifier {
        Specifier::Word(at) => spell(out, tokens, *at),
        Specifier::TypedefName(at) => spell(out, tokens, *at),
        Specifier::Tag(keyword, tag) => {
            out.push_str("(")?;
            spell(out, tokens, *keyword)?;
            out.push_str(" ")?;
            spell(out, tokens, *tag)?;
            out.push_str(")")
        }
        Specifier::Atomic(_, _, name, _) => {
            out.push_str("(atomic ")?;
            show_name(out, tokens, "(type ", name)?;
            out.push_str(")")
        }
        Specifier::AlignedAs(_, _, name, _) => {
            out.push_str("(alignas ")?;
            show_name(out, tokens, "(type ", name)?;
            out.push_str(")")
        }
        Specifier::Aligned(_, _, size, _) => {
            out.push_str("(alignas ")?;
            show(out, tokens, size)?;
            out.push_str(")")
        }
        Specifier::Members(keyword, tag, _, members, _) => {
            open_tagged(out, tokens, *keyword, *tag)?;
            out.push_str(" (members")?;
            for member in members {
                out.push_str(" ")?;
                show_member(out, tokens, member)?;
            }
            close(out, 2)
        }
        Specifier::Enumerators(list) => {
            open_tagged(out, tokens, list.keyword, list.tag)?;
            out.push_str(" (items ")?;
            show_enumerator(out, tokens, &list.first)?;
            for pair in &list.more {
                out.push_str(" ")?;
                show_enumerator(out, tokens, &pair.1)?;
            }
            close(out, 2)
        }
    }
}

// `struct`, `union` or `enum` and its tag, if there is one.
fn open_tagged(
    out: &mut String,
    tokens: &[OutToken],
    keyword: u32,
    tag: Option<u32>,
) -> Result<(), AllocError> {
    out.push_str("(")?;
    spell(out, tokens, keyword)?;
    out.push_str(" ")?;
    match tag {
        Some(at) => spell(out, tokens, at),
        None => out.push_str("_"),
    }
}

#[cycle(show)]
fn show_field(out: &mut String, tokens: &[OutToken], field: &Field) -> Result<(), AllocError> {
    match field {
        Field::Declared(declarator) => show_declarator(out, tokens, declarator),
        Field::Bits(declarator, _, width) => {
            out.push_str("(bits ")?;
            show_declarator(out, tokens, declarator)?;
            out.push_str(" ")?;
            show(out, tokens, width)?;
            out.push_str(")")
        }
        Field::Padding(_, width) => {
            out.push_str("(bits _ ")?;
            show(out, tokens, width)?;
            out.push_str(")")
        }
    }
}

#[cycle(show)]
fn show_member(out: &mut String, tokens: &[OutToken], member: &Member) -> Result<(), AllocError> {
    match member {
        Member::Bare(specs, _) => {
            out.push_str("(member ")?;
            show_specifiers(out, tokens, specs)?;
            out.push_str(")")
        }
        Member::Fields(specs, first, more, _) => {
            out.push_str("(member ")?;
            show_specifiers(out, tokens, specs)?;
            out.push_str(" ")?;
            show_field(out, tokens, first)?;
            for pair in more {
                out.push_str(" ")?;
                show_field(out, tokens, &pair.1)?;
            }
            out.push_str(")")
        }
        Member::Asserted(assertion) => show_assertion(out, tokens, assertion),
    }
}

#[cycle(show)]
fn show_enumerator(
    out: &mut String,
    tokens: &[OutToken],
    enumerator: &Enumerator,
) -> Result<(), AllocError> {
    out.push_str("(")?;
    match enumerator {
        Enumerator::Counted(at) => spell(out, tokens, *at)?,
        Enumerator::Given(at, _, value) => {
            spell(out, tokens, *at)?;
            out.push_str(" ")?;
            show(out, tokens, value)?;
        }
    }
    out.push_str(")")
}

#[cycle(show)]
pub(crate) fn show_assertion(
    out: &mut String,
    tokens: &[OutToken],
    assertion: &Assertion,
) -> Result<(), AllocError> {
    out.push_str("(assert ")?;
    show(out, tokens, &assertion.condition)?;
    out.push_str(" ")?;
    show_text(out, tokens, assertion.text.as_slice())?;
    out.push_str(")")
}

#[cycle(show)]
fn show_bound(out: &mut String, tokens: &[OutToken], bound: &Bound) -> Result<(), AllocError> {
    match bound {
        Bound::Unsized(qualifiers) => show_words(out, tokens, qualifiers.as_slice()),
        Bound::AnySize(qualifiers, _) => {
            show_words(out, tokens, qualifiers.as_slice())?;
            out.push_str(" *")
        }
        Bound::Sized(qualifiers, size) => {
            show_words(out, tokens, qualifiers.as_slice())?;
            out.push_str(" ")?;
            show(out, tokens, size)
        }
        Bound::StaticSized(_, qualifiers, size) => {
            out.push_str(" static")?;
            show_words(out, tokens, qualifiers.as_slice())?;
            out.push_str(" ")?;
            show(out, tokens, size)
        }
        Bound::SizedStatic(qualifiers, _, size) => {
            show_words(out, tokens, qualifiers.as_slice())?;
            out.push_str(" static ")?;
            show(out, tokens, size)
        }
    }
}

fn open_deriving(out: &mut String, deriving: &Deriving) -> Result<(), AllocError> {
    match deriving {
        Deriving::Array(_, _, _) => out.push_str("(array "),
        Deriving::Function(_, _, _) => out.push_str("(func "),
    }
}

// The first parameter and the others, and `...`.
#[cycle(show)]
fn show_parameters(
    out: &mut String,
    tokens: &[OutToken],
    parameters: &Parameters,
) -> Result<(), AllocError> {
    match parameters {
        Parameters::NoParameters => Ok(()),
        Parameters::Fixed(first, more) => {
            show_name(out, tokens, " (param ", first)?;
            for pair in more {
                show_name(out, tokens, " (param ", &pair.1)?;
            }
            Ok(())
        }
        Parameters::Variadic(first, more, _, _) => {
            show_name(out, tokens, " (param ", first)?;
            for pair in more {
                show_name(out, tokens, " (param ", &pair.1)?;
            }
            out.push_str(" ...")
        }
        Parameters::Names(first, more) => show_names(out, tokens, *first, more.as_slice()),
    }
}

fn show_names(
    out: &mut String,
    tokens: &[OutToken],
    first: u32,
    more: &[(u32, u32)],
) -> Result<(), AllocError> {
    out.push_str(" (idents ")?;
    spell(out, tokens, first)?;
    for pair in more {
        out.push_str(" ")?;
        spell(out, tokens, pair.1)?;
    }
    out.push_str(")")
}

#[cycle(show)]
fn close_deriving(
    out: &mut String,
    tokens: &[OutToken],
    deriving: &Deriving,
) -> Result<(), AllocError> {
    match deriving {
        Deriving::Array(_, bound, _) => show_bound(out, tokens, bound)?,
        Deriving::Function(_, parameters, _) => show_parameters(out, tokens, parameters)?,
    }
    out.push_str(")")
}

#[cycle(show)]
fn show_group(out: &mut String, tokens: &[OutToken], group: &Group) -> Result<(), AllocError> {
    match group {
        Group::NoGroup => out.push_str("_"),
        Group::Named(at) => spell(out, tokens, *at),
        Group::Grouped(_, inner, _) => {
            out.push_str("(paren ")?;
            show_declarator(out, tokens, inner)?;
            out.push_str(")")
        }
    }
}

fn open_pointers(
    out: &mut String,
    tokens: &[OutToken],
    declarator: &Declarator,
) -> Result<(), AllocError> {
    for pointer in &declarator.pointers {
        out.push_str("(ptr ")?;
        for qualifier in &pointer.qualifiers {
            spell(out, tokens, *qualifier)?;
            out.push_str(" ")?;
        }
    }
    Ok(())
}

#[cycle(show)]
pub(crate) fn show_declarator(
    out: &mut String,
    tokens: &[OutToken],
    declarator: &Declarator,
) -> Result<(), AllocError> {
    open_pointers(out, tokens, declarator)?;
    for deriving in declarator.derivings.iter().rev() {
        open_deriving(out, deriving)?;
    }
    show_group(out, tokens, &declarator.group)?;
    for deriving in &declarator.derivings {
        close_deriving(out, tokens, deriving)?;
    }
    close(out, declarator.pointers.len())
}

// Specifiers and a declarator, behind a word for what they are.
#[cycle(show)]
fn show_name(
    out: &mut String,
    tokens: &[OutToken],
    opening: &str,
    name: &TypeName,
) -> Result<(), AllocError> {
    out.push_str(opening)?;
    show_specifiers(out, tokens, &name.specs)?;
    out.push_str(" ")?;
    show_declarator(out, tokens, &name.declarator)?;
    out.push_str(")")
}

#[cycle(show)]
pub(crate) fn show_specifiers(
    out: &mut String,
    tokens: &[OutToken],
    specs: &Specs,
) -> Result<(), AllocError> {
    out.push_str("(specs")?;
    for specifier in &specs.specifiers {
        out.push_str(" ")?;
        show_specifier(out, tokens, specifier)?;
    }
    out.push_str(")")
}

#[cycle(show)]
fn open_prefix(out: &mut String, tokens: &[OutToken], prefix: &Prefix) -> Result<(), AllocError> {
    match prefix {
        Prefix::Operator(at) => open_unary(out, tokens, *at),
        Prefix::Cast(_, name, _) => {
            out.push_str("(cast ")?;
            show_name(out, tokens, "(type ", name)?;
            out.push_str(" ")
        }
    }
}

// `sizeof` or `_Alignof` with a type.
#[cycle(show)]
fn show_of_type(
    out: &mut String,
    tokens: &[OutToken],
    keyword: u32,
    name: &TypeName,
) -> Result<(), AllocError> {
    match spelling(tokens, keyword) == "sizeof" {
        true => out.push_str("(sizeof ")?,
        false => out.push_str("(alignof ")?,
    }
    show_name(out, tokens, "(type ", name)?;
    out.push_str(")")
}

#[cycle(show)]
fn show_suffix(out: &mut String, tokens: &[OutToken], suffix: &Suffix) -> Result<(), AllocError> {
    match suffix {
        Suffix::Index(_, inner, _) => {
            out.push_str(" ")?;
            show(out, tokens, inner)
        }
        Suffix::Call(_, _) => Ok(()),
        Suffix::CallWith(_, first, more, _) => {
            out.push_str(" ")?;
            show(out, tokens, first)?;
            for pair in more {
                out.push_str(" ")?;
                show(out, tokens, &pair.1)?;
            }
            Ok(())
        }
        Suffix::Member(_, name) => {
            out.push_str(" ")?;
            spell(out, tokens, *name)
        }
        Suffix::Step(_) => Ok(()),
    }
}

#[cycle(show)]
pub(crate) fn show_init(
    out: &mut String,
    tokens: &[OutToken],
    init: &Init,
) -> Result<(), AllocError> {
    match init {
        Init::Value(expr) => show(out, tokens, expr),
        Init::List(list) => show_braces(out, tokens, list),
    }
}

#[cycle(show)]
fn show_designator(
    out: &mut String,
    tokens: &[OutToken],
    designator: &Designator,
) -> Result<(), AllocError> {
    match designator {
        Designator::Element(_, index, _) => {
            out.push_str("(at ")?;
            show(out, tokens, index)?;
            out.push_str(") ")
        }
        Designator::Field(_, name) => {
            out.push_str(".")?;
            spell(out, tokens, *name)?;
            out.push_str(" ")
        }
    }
}

#[cycle(show)]
fn show_piece(out: &mut String, tokens: &[OutToken], piece: &Piece) -> Result<(), AllocError> {
    match piece {
        Piece::Plain(init) => show_init(out, tokens, init),
        Piece::Designated(first, more, _, init) => {
            out.push_str("(des ")?;
            show_designator(out, tokens, first)?;
            for designator in more {
                show_designator(out, tokens, designator)?;
            }
            show_init(out, tokens, init)?;
            out.push_str(")")
        }
    }
}

#[cycle(show)]
fn show_braces(out: &mut String, tokens: &[OutToken], list: &Braces) -> Result<(), AllocError> {
    out.push_str("(list ")?;
    show_piece(out, tokens, &list.first)?;
    for pair in &list.more {
        out.push_str(" ")?;
        show_piece(out, tokens, &pair.1)?;
    }
    out.push_str(")")
}

#[cycle(show)]
fn show_choice(out: &mut String, tokens: &[OutToken], choice: &Choice) -> Result<(), AllocError> {
    out.push_str("(cond ")?;
    show(out, tokens, &choice.test)?;
    out.push_str(" ")?;
    show(out, tokens, &choice.middle)?;
    out.push_str(" ")
}

#[cycle(show)]
fn show_postfix(out: &mut String, tokens: &[OutToken], expr: &Expr) -> Result<(), AllocError> {
    let Expr::Postfix(first, suffixes) = expr else {
        return Ok(());
    };
    for suffix in suffixes.iter().rev() {
        open_suffix(out, tokens, suffix)?;
    }
    show(out, tokens, first)?;
    for suffix in suffixes {
        show_suffix(out, tokens, suffix)?;
        out.push_str(")")?;
    }
    Ok(())
}

#[cycle(show)]
fn show_binary(out: &mut String, tokens: &[OutToken], expr: &Expr) -> Result<(), AllocError> {
    let Expr::Binary(first, more) = expr else {
        return Ok(());
    };
    open_pairs(out, tokens, more.as_slice())?;
    show(out, tokens, first)?;
    for pair in more {
        out.push_str(" ")?;
        show(out, tokens, &pair.1)?;
        out.push_str(")")?;
    }
    Ok(())
}

#[cycle(show)]
fn show_assign(out: &mut String, tokens: &[OutToken], expr: &Expr) -> Result<(), AllocError> {
    let Expr::Assign(places, value) = expr else {
        return Ok(());
    };
    for place in places {
        out.push_str("(assign ")?;
        spell(out, tokens, place.1)?;
        out.push_str(" ")?;
        show(out, tokens, &place.0)?;
        out.push_str(" ")?;
    }
    show(out, tokens, value)?;
    close(out, places.len())
}

#[cycle(show)]
fn show_association(
    out: &mut String,
    tokens: &[OutToken],
    association: &Association,
) -> Result<(), AllocError> {
    match association {
        Association::Typed(name, _, expr) => {
            out.push_str(" (")?;
            show_name(out, tokens, "(type ", name)?;
            out.push_str(" ")?;
            show(out, tokens, expr)?;
            out.push_str(")")
        }
        Association::Default(_, _, expr) => {
            out.push_str(" (default ")?;
            show(out, tokens, expr)?;
            out.push_str(")")
        }
    }
}

#[cycle(show)]
fn show_generic(out: &mut String, tokens: &[OutToken], expr: &Expr) -> Result<(), AllocError> {
    let Expr::Generic(_, _, control, choices, _) = expr else {
        return Ok(());
    };
    out.push_str("(generic ")?;
    show(out, tokens, control)?;
    for choice in choices.as_slice() {
        show_association(out, tokens, &choice.1)?;
    }
    out.push_str(")")
}

// What selects within a member.
#[cycle(show)]
fn show_step(out: &mut String, tokens: &[OutToken], step: &Suffix) -> Result<(), AllocError> {
    match step {
        Suffix::Index(_, inner, _) => {
            out.push_str(" (at ")?;
            show(out, tokens, inner)?;
            out.push_str(")")
        }
        Suffix::Member(_, name) => {
            out.push_str(" .")?;
            spell(out, tokens, *name)
        }
        _ => Ok(()),
    }
}

#[cycle(show)]
fn show_offset(out: &mut String, tokens: &[OutToken], expr: &Expr) -> Result<(), AllocError> {
    let Expr::Offset(_, _, name, _, member, steps, _) = expr else {
        return Ok(());
    };
    out.push_str("(offsetof ")?;
    show_name(out, tokens, "(type ", name)?;
    out.push_str(" .")?;
    spell(out, tokens, *member)?;
    for step in steps.as_slice() {
        show_step(out, tokens, step)?;
    }
    out.push_str(")")
}

#[cycle(show)]
fn show(out: &mut String, tokens: &[OutToken], expr: &Expr) -> Result<(), AllocError> {
    match expr {
        Expr::Name(at) => spell(out, tokens, *at),
        Expr::Constant(at) => spell(out, tokens, *at),
        Expr::Text(pieces) => show_text(out, tokens, pieces.as_slice()),
        Expr::Paren(_, inner, _) => {
            out.push_str("(paren ")?;
            show(out, tokens, inner)?;
            out.push_str(")")
        }
        Expr::Postfix(_, _) => show_postfix(out, tokens, expr),
        Expr::Unary(prefixes, operand) => {
            for prefix in prefixes {
                open_prefix(out, tokens, prefix)?;
            }
            show(out, tokens, operand)?;
            close(out, prefixes.len())
        }
        Expr::OfType(keyword, _, name, _) => show_of_type(out, tokens, *keyword, name),
        Expr::Compound(_, name, _, list) => {
            out.push_str("(compound ")?;
            show_name(out, tokens, "(type ", name)?;
            out.push_str(" ")?;
            show_braces(out, tokens, list)?;
            out.push_str(")")
        }
        Expr::Binary(_, _) => show_binary(out, tokens, expr),
        Expr::Conditional(choices, last) => {
            for choice in choices {
                show_choice(out, tokens, choice)?;
            }
            show(out, tokens, last)?;
            close(out, choices.len())
        }
        Expr::Assign(_, _) => show_assign(out, tokens, expr),
        Expr::Generic(_, _, _, _, _) => show_generic(out, tokens, expr),
        Expr::Offset(_, _, _, _, _, _, _) => show_offset(out, tokens, expr),
    }
}

// The tree of an expression, behind what stands there.
pub(crate) fn shown_into(
    out: &mut String,
    tokens: &[OutToken],
    expr: &Expr,
) -> Result<(), AllocError> {
    show(out, tokens, expr)
}

/// The tree of an expression of these tokens.
pub fn shown(alloc: Global, tokens: &[OutToken], expr: &Expr) -> Result<String, AllocError> {
    let mut out = String::new(alloc);
    show(&mut out, tokens, expr)?;
    Ok(out)
}

/// The name of a type of these tokens.
pub fn shown_name(
    alloc: Global,
    tokens: &[OutToken],
    name: &TypeName,
) -> Result<String, AllocError> {
    let mut out = String::new(alloc);
    show_name(&mut out, tokens, "(type ", name)?;
    Ok(out)
}
