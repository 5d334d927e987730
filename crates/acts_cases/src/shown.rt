// Steps as words.
use std::alloc::{AllocError, Global};
use stmt_acts::{Act, Within};
use tok_data::OutToken;
use tree_data::Expr;

fn spelled(tokens: &[OutToken], at: u32) -> &str {
    match tokens.get(at as usize) {
        Some(token) => token.spelling.as_str(),
        None => "?",
    }
}

// The one token of an expression.
fn expr_text<'a>(tokens: &'a [OutToken], expr: &Expr) -> &'a str {
    match expr {
        Expr::Name(at) => spelled(tokens, *at),
        Expr::Constant(at) => spelled(tokens, *at),
        _ => "..",
    }
}

fn push_at(out: &mut String, alloc: Global, word: &str, at: u32) -> Result<(), AllocError> {
    let text = format!(in alloc; "{word} {at}")?;
    out.push_str(text.as_str())
}

fn push_test(
    out: &mut String,
    alloc: Global,
    tokens: &[OutToken],
    word: &str,
    at: u32,
    expr: &Expr,
) -> Result<(), AllocError> {
    let shown = expr_text(tokens, expr);
    let text = format!(in alloc; "{word} {at} {shown}")?;
    out.push_str(text.as_str())
}

fn push_name(out: &mut String, tokens: &[OutToken], word: &str, at: u32) -> Result<(), AllocError> {
    out.push_str(word)?;
    out.push_str(spelled(tokens, at))
}

fn push_jump(
    out: &mut String,
    alloc: Global,
    word: &str,
    at: u32,
    within: Within,
) -> Result<(), AllocError> {
    push_at(out, alloc, word, at)?;
    if within.looping {
        out.push_str(" loop")?;
    }
    if within.switching {
        out.push_str(" switch")?;
    }
    Ok(())
}

fn push_return(
    out: &mut String,
    alloc: Global,
    tokens: &[OutToken],
    at: u32,
    value: Option<&Expr>,
) -> Result<(), AllocError> {
    match value {
        Some(value) => push_test(out, alloc, tokens, "return", at, value),
        None => push_at(out, alloc, "return", at),
    }
}

fn push_act(
    out: &mut String,
    alloc: Global,
    tokens: &[OutToken],
    act: Act<'_>,
) -> Result<(), AllocError> {
    match act {
        Act::Enter => out.push_str("enter"),
        Act::Leave => out.push_str("leave"),
        Act::Evaluate(expr) => {
            out.push_str("evaluate ")?;
            out.push_str(expr_text(tokens, expr))
        }
        Act::IfTest(at, expr) => push_test(out, alloc, tokens, "if", at, expr),
        Act::LoopTest(at, expr) => push_test(out, alloc, tokens, "loop", at, expr),
        Act::SwitchOn(at, expr) => push_test(out, alloc, tokens, "switch", at, expr),
        Act::EndSwitch => out.push_str("end"),
        Act::CaseLabel(at, expr) => push_test(out, alloc, tokens, "case", at, expr),
        Act::DefaultLabel(at) => push_at(out, alloc, "default", at),
        Act::Label(at) => push_name(out, tokens, "label ", at),
        Act::Goto(at) => push_name(out, tokens, "goto ", at),
        Act::Continue(at, within) => push_jump(out, alloc, "continue", at, within),
        Act::Break(at, within) => push_jump(out, alloc, "break", at, within),
        Act::Return(at, value) => push_return(out, alloc, tokens, at, value),
        Act::Declare(_) => out.push_str("declare"),
        Act::DeclareInFor(_) => out.push_str("declare in for"),
    }
}

/// Each step, `;` between two.
pub fn shown(alloc: Global, tokens: &[OutToken], acts: &[Act<'_>]) -> Result<String, AllocError> {
    let mut out = String::new(alloc);
    let mut parted = "";
    for act in acts {
        out.push_str(parted)?;
        push_act(&mut out, alloc, tokens, *act)?;
        parted = "; ";
    }
    Ok(out)
}
