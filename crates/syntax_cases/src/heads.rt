// Heads as S-expressions.
use crate::shown::{show_assertion, show_declarator, show_init, show_specifiers};
use std::alloc::{AllocError, Global};
use tok_data::OutToken;
use tree_data::{Declarator, Head, Init};

fn show_declared(
    out: &mut String,
    tokens: &[OutToken],
    declarator: &Declarator,
    init: &Option<Init>,
) -> Result<(), AllocError> {
    match init {
        Some(value) => {
            out.push_str("(= ")?;
            show_declarator(out, tokens, declarator)?;
            out.push_str(" ")?;
            show_init(out, tokens, value)?;
            out.push_str(")")
        }
        None => show_declarator(out, tokens, declarator),
    }
}

fn show_declaration(out: &mut String, tokens: &[OutToken], head: &Head) -> Result<(), AllocError> {
    if head.has_body {
        out.push_str("(function ")?;
    } else {
        out.push_str("(decl ")?;
    }
    show_specifiers(out, tokens, &head.specs)?;
    for one in &head.declarators {
        out.push_str(" ")?;
        show_declared(out, tokens, &one.0, &one.1)?;
    }
    out.push_str(")")
}

// The tree of a head, behind what stands there.
pub(crate) fn show_head(
    out: &mut String,
    tokens: &[OutToken],
    head: &Head,
) -> Result<(), AllocError> {
    match &head.assertion {
        Some(assertion) => show_assertion(out, tokens, assertion),
        None => show_declaration(out, tokens, head),
    }
}

/// The head of these tokens.
pub fn shown_head(alloc: Global, tokens: &[OutToken], head: &Head) -> Result<String, AllocError> {
    let mut out = String::new(alloc);
    show_head(&mut out, tokens, head)?;
    Ok(out)
}
