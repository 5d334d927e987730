// Heads and bodies of items, read.
ghost use Rattle.std.specs.Prelude.{IfOk};
ghost use Rattle.item_readings.specs.Readings as spec;
ghost use Rattle.item_readings.specs.Seen.{head_seen, body_seen};

use c_parser::{NameSet, ParseError, parse_head};
use std::alloc::{AllocError, Global};
use stmt_parser::parse_body;
use tok_data::OutToken;
use tree_data::{Head, Stmt};

/// Why an item's head or body has no tree: the rule, 301 where no tree of the grammar spells the tokens and 303 where brackets nest past 256
/// levels; and the number of a token among those that were read, the first one for 301 and the bracket that opens the 257th level for 303.
#[derive(Clone, Copy, Debug, PartialEq, Eq, Drop)]
pub struct Refusal {
    pub rule: u16,
    pub at: u32,
}

/// What the tokens of a head are.
#[derive(Drop)]
pub enum HeadReading {
    Tree(Head),
    Refused(Refusal),
}

/// What the tokens of a body are.
#[derive(Drop)]
pub enum BodyReading {
    Tree(Stmt),
    Refused(Refusal),
}

/// The tree of an item's head (ISO C11 6.7, 6.9), as a function of its tokens and of the names that are typedef names in front of it. More than
/// 2,000,000 tokens, which no item of a unit has, are refused by rule 301 at the first.
///
/// Errors: want of memory.
pub fn read_head(
    alloc: Global,
    tokens: &[OutToken],
    names: &NameSet,
) -> Result<HeadReading, AllocError>
    ensures reading { IfOk result (λ x. spec.ReadsHead names.now tokens.now (head_seen x)) }
{
    if tokens.len() > 2_000_000 {
        return Ok(HeadReading::Refused(Refusal { rule: 301, at: 0 }));
    }
    match parse_head(alloc, tokens, names) {
        Ok(head) => Ok(HeadReading::Tree(head)),
        Err(ParseError::Syntax(at)) => Ok(HeadReading::Refused(Refusal { rule: 301, at })),
        Err(ParseError::TooDeep(at)) => Ok(HeadReading::Refused(Refusal { rule: 303, at })),
        Err(ParseError::NoMemory) => Err(AllocError),
    }
}

/// The tree of a function's body (6.8.2), likewise.
///
/// Errors: want of memory.
pub fn read_body(
    alloc: Global,
    tokens: &[OutToken],
    names: &NameSet,
) -> Result<BodyReading, AllocError>
    ensures reading { IfOk result (λ x. spec.ReadsBody names.now tokens.now (body_seen x)) }
{
    if tokens.len() > 2_000_000 {
        return Ok(BodyReading::Refused(Refusal { rule: 301, at: 0 }));
    }
    match parse_body(alloc, tokens, names) {
        Ok(body) => Ok(BodyReading::Tree(body)),
        Err(ParseError::Syntax(at)) => Ok(BodyReading::Refused(Refusal { rule: 301, at })),
        Err(ParseError::TooDeep(at)) => Ok(BodyReading::Refused(Refusal { rule: 303, at })),
        Err(ParseError::NoMemory) => Err(AllocError),
    }
}
