// A body that takes all tokens (ISO C11 6.8.2, 6.9.1).
ghost use Rattle.std.specs.Prelude.{◌≡◌, ◌≤◌, ℕ, length, IfOk, IfErr, None};
ghost use Rattle.tree_data.specs.Stated.{stmt_of};
ghost use Rattle.tree_data.specs.Statements.{Statement};
ghost use Rattle.c_parser.specs.Parts.{PartsLaw};
ghost use Rattle.c_parser.specs.Reading as reading;
ghost use Rattle.c_parser.specs.Reading.{IsAtFront, IsRefused};
ghost use Rattle.c_parser.specs.Words as words;
ghost use Rattle.stmt_parser.specs.Bodies.{IsBody, IsBodyMeaning, IsBodyCause};

use crate::statements::block;
use c_parser::{Kind, NameSet, ParseError, Scope, Stop, item_words, parts_law};
use std::alloc::Global;
use tok_data::OutToken;
use tree_data::Stmt;

// Where the parser stopped is not told: a fault falls on the first token.
fn at_front(stop: Stop) -> ParseError
    ensures { result ≡ reading.at_front stop }
{
    match stop {
        Stop::Syntax(_) => ParseError::Syntax(0),
        Stop::NoMemory => ParseError::NoMemory,
    }
}

// The body of these tokens, of which there are so many.
fn body(alloc: Global, scope: &Scope<'_>, len: usize) -> Result<Stmt, ParseError>
    requires law { PartsLaw }
    requires size { length scope.now.kinds ≤ 2000000 }
    requires len { len ≡ length scope.now.kinds }
    ensures found { IfOk result (λ s. IsBody scope.now (stmt_of s)) }
    ensures fails { IfErr result (λ e. (u : Statement) → IsBody scope.now u → IsRefused e) }
    ensures place { IfErr result IsAtFront }
{
    let Kind::OpenBrace = scope.kind_at(0) else {
        return Err(ParseError::Syntax(0));
    };
    let (stmt, end) = match block(alloc, scope, 0) {
        Ok(found) => found,
        Err(stop) => return Err(at_front(stop)),
    };
    if (end as usize) < len {
        return Err(ParseError::Syntax(0));
    }
    Ok(stmt)
}

// The same for tokens of these kinds, under these flags.
fn whole(alloc: Global, kinds: &[Kind], hidden: Vec<bool>) -> Result<Stmt, ParseError>
    requires law { PartsLaw }
    requires size { length kinds.now ≤ 2000000 }
    ensures found { IfOk result (λ s. IsBody (record { kinds = kinds.now; hidden = hidden.items }) (stmt_of s)) }
    ensures fails { IfErr result (λ e. (u : Statement) → IsBody (record { kinds = kinds.now; hidden = hidden.items }) u → IsRefused e) }
    ensures place { IfErr result IsAtFront }
{
    let Ok(scope) = Scope::new(alloc, kinds, hidden) else {
        return Err(ParseError::NoMemory);
    };
    match body(alloc, &scope, kinds.len()) {
        Ok(stmt) => Ok(stmt),
        Err(error) => Err(error),
    }
}

/// The one body that the tokens spell, all of them (ISO C11 6.8.2): a compound statement, from the `{` to its `}`. An identifier among `names` is
/// a typedef name at first; a declaration of a block makes a name a typedef name or none up to the end of the block (6.2.1). An `else` goes with the nearest
/// `if` that has none (6.8.4.1p3). An enumerator makes its name none, also in an expression, up to the end of the block, or of the selection
/// or iteration statement, that it stands in (6.8.4p3, 6.8.5p5). The tokens are at most 2,000,000.
///
/// The time is linear in the tokens, but that a declaration which makes a name a typedef name, or none, in a block, a loop or a list of parameters of its own copies a flag
/// a token there. The machine's stack is taken by braces, 256 at most, and by what nests in expressions.
///
/// Errors: TooDeep with the bracket that opens the 257th level, which is looked for first; Syntax(0) exactly where
/// no body of the grammar spells the tokens and no bracket is too deep; NoMemory.
pub fn parse_body(alloc: Global, tokens: &[OutToken], names: &NameSet) -> Result<Stmt, ParseError>
    requires size { length tokens.now ≤ 2000000 }
    ensures meaning { IfOk result (λ s. IsBodyMeaning (words.words_of names.now tokens.now) (stmt_of s)) }
    ensures cause { IfErr result (λ e. IsBodyCause (words.words_of names.now tokens.now) e) }
{
    parts_law();
    let (kinds, hidden) = match item_words(alloc, tokens, names) {
        Ok(found) => found,
        Err(error) => return Err(error),
    };
    match whole(alloc, kinds.as_slice(), hidden) {
        Ok(stmt) => Ok(stmt),
        Err(error) => Err(error),
    }
}
