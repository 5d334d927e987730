// The texts that a unit reads, and their parts (ISO C11 6.10p1, p2).
ghost use Rattle.std.specs.Prelude.{◌≡◌, ◌<◌, ◌≤◌, ◌+◌, ◌∷◌, [], ◌++◌, ℕ, List, ◌^◌, length, take, drop, not, IfOk, OnOk, IfSome};
ghost use Rattle.std.specs.List.{prefix_len};
ghost use Rattle.include_units.specs.Texts as spec;
ghost use Rattle.include_units.specs.Fronts as fronts;

use crate::grown::Grown;
use crate::own::OwnText;
use crate::tokens::is_hash;
use shared_text::Name;
use std::alloc::{AllocError, Global};
use tok_data::{FileId, OutToken, OutTokens, PpToken, Spelt, TokId};
use uri_paths::Path;

// Where a text comes from: a file at a path, or a text of the server's own, which are the library texts and `<command>`.
#[derive(Debug, Drop)]
pub(crate) enum Source {
    File(Path),
    Own(OwnText),
}

// A text by the name that its tokens carry.
#[derive(Debug, Drop)]
pub(crate) struct Text {
    pub(crate) name: Name,
    pub(crate) source: Source,
}

// A run of text lines, which are expanded together, or a directive: its `#`, and what stands behind that on its line.
#[derive(Debug, Drop)]
pub(crate) enum Part {
    Run(OutTokens),
    Directive(OutToken, OutTokens),
}

// The part in front of a list of tokens, with the number of the first token behind it, and what stands there.
#[derive(Debug, Drop)]
pub(crate) struct Front<'a> {
    pub(crate) part: Part,
    pub(crate) at: u32,
    pub(crate) behind: &'a [PpToken],
}

// A token of a text, by its number there.
fn source_token(name: &Name, at: u32, token: &PpToken) -> Result<OutToken, AllocError>
    ensures { IfOk result (λ t. t ≡ spec.source_token name.now at token.now) }
{
    let spelling = token.spelling.share()?;
    let file = FileId::from_name(name.share()?);
    let site = TokId { file, at };
    let spelt = Spelt::At(site.copy()?);
    Ok(OutToken {
        kind: token.kind,
        spelling,
        space_before: token.space_before,
        spelt,
        site,
    })
}

// Adds tokens of a text.
fn add_tokens(
    out: &mut Grown<OutToken>,
    name: &Name,
    at: u32,
    tokens: &[PpToken],
) -> Result<(), AllocError>
    requires { at + length tokens.now < 2 ^ 32 }
    ensures { OnOk result (out.new ≡ out.old ++ spec.source_tokens name.now at tokens.now) }
{
    let mut number = at;
    let mut rest = tokens;
    while let Some((token, behind)) = rest.split_first() {
        out.push(source_token(name, number, token)?)?;
        number += 1;
        rest = behind;
    }
    Ok(())
}

// How many tokens go on with the line of the token before them.
fn line_width(tokens: &[PpToken]) -> usize
    ensures width { result ≡ prefix_len (λ t. not t.line_start) tokens.now }
    ensures within { result ≤ length tokens.now }
{
    tokens.iter().take_while(|t| !t.line_start).count()
}

// What stands behind a line.
#[derive(Clone, Copy, Debug, Drop)]
struct Behind<'a> {
    at: u32,
    tokens: &'a [PpToken],
}

// Adds the rest of the line of a token.
fn add_line<'a>(
    out: &mut Grown<OutToken>,
    name: &Name,
    at: u32,
    tokens: &'a [PpToken],
) -> Result<Behind<'a>, AllocError>
    requires { at + length tokens.now < 2 ^ 32 }
    ensures line { OnOk result (out.new ≡ out.old ++ spec.source_tokens name.now at (take (fronts.width tokens.now) tokens.now)) }
    ensures at { IfOk result (λ b. b.at ≡ at + fronts.width tokens.now) }
    ensures behind { IfOk result (λ b. b.tokens.now ≡ drop (fronts.width tokens.now) tokens.now) }
    ensures numbered { IfOk result (λ b. b.at + length b.tokens.now ≡ at + length tokens.now) }
    ensures shorter { IfOk result (λ b. length b.tokens.now ≤ length tokens.now) }
{
    let width = line_width(tokens);
    let (line, behind) = tokens.split_at(width);
    add_tokens(out, name, at, line)?;
    Ok(Behind {
        at: at + width as u32,
        tokens: behind,
    })
}

fn run_front<'a>(out: Grown<OutToken>, at: u32, behind: &'a [PpToken]) -> Front<'a>
    ensures part { result.part ≡ spec.Run out }
    ensures at { result.at ≡ at }
    ensures behind { result.behind.now ≡ behind.now }
{
    Front {
        part: Part::Run(OutTokens::from_vec(out.into_vec())),
        at,
        behind,
    }
}

// The run of text lines that goes on with these tokens.
#[tactic(auto, using(crate::proofs::TextLemmas::run_ends, crate::proofs::TextLemmas::further_same))]
fn run_in_front<'a>(
    alloc: Global,
    name: &Name,
    at: u32,
    begun: Grown<OutToken>,
    tokens: &'a [PpToken],
) -> Result<Front<'a>, AllocError>
    requires { at + length tokens.now < 2 ^ 32 }
    ensures further { IfOk result (λ front. fronts.IsFurther at tokens.now front.at front.behind.now) }
    ensures parts { IfOk result (λ front. spec.before_run begun (spec.parts_from name.now at tokens.now) ≡ fronts.front_parts name.now front) }
    ensures numbered { IfOk result (λ front. front.at + length front.behind.now ≡ at + length tokens.now) }
    ensures shorter { IfOk result (λ front. length front.behind.now ≤ length tokens.now) }
{
    let mut out = begun;
    let mut number = at;
    let mut rest = tokens;
    while let Some((token, behind)) = rest.split_first() {
        let first = source_token(name, number, token)?;
        if is_hash(&first) {
            return Ok(run_front(out, number, rest));
        }
        out.push(first)?;
        let line = add_line(&mut out, name, number + 1, behind)?;
        number = line.at;
        rest = line.tokens;
    }
    Ok(run_front(out, number, rest))
}

// The directive that a token begins.
fn directive_in_front<'a>(
    alloc: Global,
    name: &Name,
    at: u32,
    hash: OutToken,
    tokens: &'a [PpToken],
) -> Result<Front<'a>, AllocError>
    requires { at + length tokens.now < 2 ^ 32 }
    ensures part { IfOk result (λ front. front.part ≡ spec.Directive hash (spec.source_tokens name.now at (take (fronts.width tokens.now) tokens.now))) }
    ensures at { IfOk result (λ front. front.at ≡ at + fronts.width tokens.now) }
    ensures behind { IfOk result (λ front. front.behind.now ≡ drop (fronts.width tokens.now) tokens.now) }
    ensures numbered { IfOk result (λ front. front.at + length front.behind.now ≡ at + length tokens.now) }
    ensures shorter { IfOk result (λ front. length front.behind.now ≤ length tokens.now) }
{
    let mut out = Grown::new(alloc);
    let behind = add_line(&mut out, name, at, tokens)?;
    Ok(Front {
        part: Part::Directive(hash, OutTokens::from_vec(out.into_vec())),
        at: behind.at,
        behind: behind.tokens,
    })
}

// A run of some lines grows into no second place.
const ROOM_OF_RUN: usize = 2_048;

// The run that a token begins.
#[tactic(auto, using(crate::proofs::TextLemmas::run_begins, crate::proofs::TextLemmas::further_run))]
fn run_by<'a>(
    alloc: Global,
    name: &Name,
    at: u32,
    first: OutToken,
    tokens: &'a [PpToken],
) -> Result<Front<'a>, AllocError>
    requires { at + length tokens.now < 2 ^ 32 }
    ensures further { IfOk result (λ front. fronts.IsFurther at tokens.now front.at front.behind.now) }
    ensures parts { IfOk result (λ front. fronts.run_parts name.now at first tokens.now ≡ fronts.front_parts name.now front) }
    ensures numbered { IfOk result (λ front. front.at + length front.behind.now ≡ at + length tokens.now) }
    ensures shorter { IfOk result (λ front. length front.behind.now ≤ length tokens.now) }
{
    let mut out = Grown::with_capacity(alloc, ROOM_OF_RUN.min(tokens.len()))?;
    out.push(first)?;
    let behind = add_line(&mut out, name, at, tokens)?;
    run_in_front(alloc, name, behind.at, out, behind.tokens)
}

// The part in front of tokens of a text, of which the first has this number; none where there is none.
#[tactic(auto, using(crate::proofs::TextLemmas::further_on))]
pub(crate) fn next_part<'a>(
    alloc: Global,
    name: &Name,
    at: u32,
    tokens: &'a [PpToken],
) -> Result<Option<Front<'a>>, AllocError>
    requires { at + length tokens.now < 2 ^ 32 }
    ensures further { IfOk result (λ front. IfSome front (λ f. fronts.IsFurther at tokens.now f.at f.behind.now)) }
    ensures parts { IfOk result (λ front. spec.parts_from name.now at tokens.now ≡ fronts.all_parts name.now front) }
    ensures numbered { IfOk result (λ front. IfSome front (λ f. f.at + length f.behind.now ≡ at + length tokens.now)) }
    ensures shorter { IfOk result (λ front. IfSome front (λ f. length f.behind.now < length tokens.now)) }
{
    let Some((token, behind)) = tokens.split_first() else {
        return Ok(None)
    };
    let first = source_token(name, at, token)?;
    if is_hash(&first) {
        let front = directive_in_front(alloc, name, at + 1, first, behind)?;
        return Ok(Some(front));
    }
    let front = run_by(alloc, name, at + 1, first, behind)?;
    Ok(Some(front))
}
