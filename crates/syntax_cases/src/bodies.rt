// Statements as S-expressions.
use crate::heads::show_head;
use crate::shown::{close, shown_into, spell};
use std::alloc::{AllocError, Global};
use tok_data::OutToken;
use tree_data::{Expr, Item, Lead, Stmt};

// `_` where none stands.
fn show_optional(
    out: &mut String,
    tokens: &[OutToken],
    expr: &Option<Box<Expr>>,
) -> Result<(), AllocError> {
    match expr {
        Some(expr) => shown_into(out, tokens, expr),
        None => out.push_str("_"),
    }
}

// A keyword's word, the expression behind it, and a space.
fn open_test(
    out: &mut String,
    tokens: &[OutToken],
    opening: &str,
    test: &Expr,
) -> Result<(), AllocError> {
    out.push_str(opening)?;
    shown_into(out, tokens, test)?;
    out.push_str(" ")
}

fn open_tail(
    out: &mut String,
    tokens: &[OutToken],
    test: &Option<Box<Expr>>,
    step: &Option<Box<Expr>>,
) -> Result<(), AllocError> {
    out.push_str(" ")?;
    show_optional(out, tokens, test)?;
    out.push_str(" ")?;
    show_optional(out, tokens, step)?;
    out.push_str(" ")
}

#[cycle(statements)]
fn open_lead(out: &mut String, tokens: &[OutToken], lead: &Lead) -> Result<(), AllocError> {
    match lead {
        Lead::Label(name, _) => {
            out.push_str("(label ")?;
            spell(out, tokens, *name)?;
            out.push_str(" ")
        }
        Lead::Case(_, value, _) => open_test(out, tokens, "(case ", value),
        Lead::Default(_, _) => out.push_str("(default "),
        Lead::If(_, _, test, _) => open_test(out, tokens, "(if ", test),
        Lead::IfElse(_, _, test, _, first, _) => {
            open_test(out, tokens, "(if ", test)?;
            show_statement(out, tokens, first)?;
            out.push_str(" ")
        }
        Lead::Switch(_, _, value, _) => open_test(out, tokens, "(switch ", value),
        Lead::While(_, _, test, _) => open_test(out, tokens, "(while ", test),
        Lead::For(_, _, first, _, test, _, step, _) => {
            out.push_str("(for ")?;
            show_optional(out, tokens, first)?;
            open_tail(out, tokens, test, step)
        }
        Lead::ForDeclaring(_, _, first, test, _, step, _) => {
            out.push_str("(for ")?;
            show_head(out, tokens, first)?;
            open_tail(out, tokens, test, step)
        }
    }
}

#[cycle(statements)]
fn show_item(out: &mut String, tokens: &[OutToken], item: &Item) -> Result<(), AllocError> {
    match item {
        Item::Declared(head) => show_head(out, tokens, head),
        Item::Stated(statement) => show_statement(out, tokens, statement),
    }
}

// What an expression, if there is one, makes with this word.
fn show_simple(
    out: &mut String,
    tokens: &[OutToken],
    word: &str,
    expr: &Option<Box<Expr>>,
) -> Result<(), AllocError> {
    out.push_str("(")?;
    out.push_str(word)?;
    if let Some(expr) = expr {
        out.push_str(" ")?;
        shown_into(out, tokens, expr)?;
    }
    out.push_str(")")
}

#[cycle(statements)]
fn show_statement(
    out: &mut String,
    tokens: &[OutToken],
    statement: &Stmt,
) -> Result<(), AllocError> {
    match statement {
        Stmt::Block(_, items, _) => {
            out.push_str("(block")?;
            for item in items {
                out.push_str(" ")?;
                show_item(out, tokens, item)?;
            }
            out.push_str(")")
        }
        Stmt::Expression(None, _) => out.push_str("(empty)"),
        Stmt::Expression(expr, _) => show_simple(out, tokens, "expr", expr),
        Stmt::Goto(_, label, _) => {
            out.push_str("(goto ")?;
            spell(out, tokens, *label)?;
            out.push_str(")")
        }
        Stmt::Continue(_, _) => out.push_str("(continue)"),
        Stmt::Break(_, _) => out.push_str("(break)"),
        Stmt::Return(_, expr, _) => show_simple(out, tokens, "return", expr),
        Stmt::Do(_, inner, _, _, test, _, _) => {
            out.push_str("(do ")?;
            show_statement(out, tokens, inner)?;
            out.push_str(" ")?;
            shown_into(out, tokens, test)?;
            out.push_str(")")
        }
        Stmt::Led(leads, inner) => {
            for lead in leads {
                open_lead(out, tokens, lead)?;
            }
            show_statement(out, tokens, inner)?;
            close(out, leads.len())
        }
    }
}

/// The body of these tokens.
pub fn shown_body(alloc: Global, tokens: &[OutToken], body: &Stmt) -> Result<String, AllocError> {
    let mut out = String::new(alloc);
    show_statement(&mut out, tokens, body)?;
    Ok(out)
}
