// All items of a unit, parsed one after another, for whoever measures it.
use crate::reading::tokens_of;
use c_parser::{NameSet, parse_head};
use item_cut::cut;
use std::io;
use stmt_parser::parse_body;
use tok_data::OutToken;
use tree_data::{Head, Stmt};

// More tokens are no unit.
const MOST_TOKENS: usize = 2_000_000;

// What was found so far. The trees are kept, as a session would keep them.
#[derive(Drop)]
struct Found {
    heads: Vec<Head>,
    bodies: Vec<Stmt>,
    faults: u64,
}

// Where the body of an item begins: at a `{` behind a `)`, outside of brackets, where no `=` stood.
fn body_at(item: &[OutToken]) -> Option<usize> {
    let mut depth: u64 = 0;
    let mut closed = false;
    for (at, token) in item.iter().enumerate() {
        let text = token.spelling.as_str();
        if depth == 0 && closed && text == "{" {
            return Some(at);
        }
        if depth == 0 && text == "=" {
            return None;
        }
        closed = text == ")";
        if text == "(" || text == "[" || text == "{" {
            depth = depth.saturating_add(1);
        }
        if closed || text == "]" || text == "}" {
            depth = depth.saturating_sub(1);
        }
    }
    None
}

fn parse_into(
    rt: &HostRuntime,
    names: &NameSet,
    found: &mut Found,
    head: &[OutToken],
    body: &[OutToken],
) -> io::Result<()> {
    if MOST_TOKENS < head.len() || MOST_TOKENS < body.len() {
        return Ok(());
    }
    match parse_head(rt.alloc(), head, names) {
        Ok(head) => found.heads.push(head)?,
        Err(_) => found.faults = found.faults.saturating_add(1),
    }
    if body.is_empty() {
        return Ok(());
    }
    match parse_body(rt.alloc(), body, names) {
        Ok(body) => found.bodies.push(body)?,
        Err(_) => found.faults = found.faults.saturating_add(1),
    }
    Ok(())
}

fn parse_item(
    rt: &HostRuntime,
    names: &NameSet,
    found: &mut Found,
    item: &[OutToken],
) -> io::Result<()> {
    let Some(opening) = body_at(item) else {
        return parse_into(rt, names, found, item, &[]);
    };
    match (item.get(..opening.saturating_add(1)), item.get(opening..)) {
        (Some(head), Some(body)) => parse_into(rt, names, found, head, body),
        _ => Ok(()),
    }
}

/// Parses all items of a text without directives under these typedef names. A line tells how many tokens there are once they stand, and one how
/// many heads, bodies and faults there are once all trees stand.
pub fn show_unit(rt: &HostRuntime, names: &NameSet, text: &str) -> io::Result<()> {
    let tokens = tokens_of(rt.alloc(), text)?;
    let tokens = tokens.as_slice();
    let count = tokens.len();
    println!(rt; "tokens {count}")?;
    if MOST_TOKENS < count {
        return Ok(());
    }
    let items = cut(rt.alloc(), tokens)?;
    let mut found = Found {
        heads: Vec::new(rt.alloc()),
        bodies: Vec::new(rt.alloc()),
        faults: 0,
    };
    for (start, end) in items.as_slice() {
        let Some(item) = tokens.get(*start as usize..*end as usize) else {
            continue;
        };
        parse_item(rt, names, &mut found, item)?;
    }
    let heads = found.heads.len();
    let bodies = found.bodies.len();
    let faults = found.faults;
    println!(rt; "heads {heads} bodies {bodies} faults {faults}")
}
