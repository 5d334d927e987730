// The questions about a file: their methods and params (LSP 3.17, Language Features).
ghost use Rattle.std.specs.Prelude.{◌≡◌, option_map};
ghost use Rattle.serde_json.specs.View.{view};
ghost use Rattle.json_view.specs.Refusals.{seen};
ghost use Rattle.c_session.specs.Questions as spec;
ghost use Rattle.c_session.specs.Ties.Refused.{Answers};
ghost use Rattle.c_session.specs.Ties.SeenParams.{seen_asked};

use crate::documents::path_at;
use crate::params::{document_in, params_in};
use crate::question::Question;
use crate::reasons::Refusal;
use json_view::{ViewError, get_bool, get_object, get_pos, get_str};
use serde_json::Value;
use std::alloc::Global;
use text_lines::Pos;
use uri_paths::Path;

/// What a method asks about a file.
#[derive(Clone, Copy, Debug)]
pub enum QuestionKind {
    Hover,
    Definition,
    References,
    Symbols,
    Renamable,
}

/// A question about the file that a URI names. The URI is lent by the params.
#[derive(Clone, Copy, Debug)]
pub struct Asked<'a> {
    pub uri: &'a str,
    pub question: Question,
}

/// A question about the file at a path.
#[derive(Debug, Drop)]
pub struct About {
    pub path: Path,
    pub question: Question,
}

/// What a method asks about a file, None where it asks nothing.
#[tactic(auto, unfolding(crate::specs::Questions::question_named))]
pub(crate) fn question_named(method: &str) -> Option<QuestionKind>
    ensures { result ≡ spec.question_named method.now }
{
    if method == "textDocument/hover" {
        return Some(QuestionKind::Hover);
    }
    if method == "textDocument/definition" {
        return Some(QuestionKind::Definition);
    }
    if method == "textDocument/references" {
        return Some(QuestionKind::References);
    }
    if method == "textDocument/documentSymbol" {
        return Some(QuestionKind::Symbols);
    }
    if method == "textDocument/prepareRename" {
        return Some(QuestionKind::Renamable);
    }
    None
}

#[tactic(auto, unfolding(json_view::specs::Members::pos_of))]
pub(crate) fn position_in(params: Option<&Value>) -> Result<Pos, ViewError>
    ensures { seen (λ pos. pos) result ≡ spec.position_in (option_map (λ v. view v.now) params.entry) }
{
    let found = params_in(params)?;
    match found {
        Some(params) => get_pos(params, "position"),
        None => Err(ViewError::Missing("position")),
    }
}

fn declarations_of(params: &Value) -> Result<bool, ViewError>
    ensures { seen (λ b. b) result ≡ spec.declarations_of (view params.now) }
{
    let context = get_object(params, "context")?;
    get_bool(context, "includeDeclaration")
}

fn declarations_in(params: Option<&Value>) -> Result<bool, ViewError>
    ensures { seen (λ b. b) result ≡ spec.declarations_in (option_map (λ v. view v.now) params.entry) }
{
    let found = params_in(params)?;
    match found {
        Some(params) => declarations_of(params),
        None => Err(ViewError::Missing("context")),
    }
}

fn question_in(kind: QuestionKind, params: Option<&Value>) -> Result<Question, ViewError>
    ensures { seen (λ q. q) result ≡ spec.question_in kind (option_map (λ v. view v.now) params.entry) }
{
    match kind {
        QuestionKind::Hover => {
            let pos = position_in(params)?;
            Ok(Question::Hover(pos))
        }
        QuestionKind::Definition => {
            let pos = position_in(params)?;
            Ok(Question::Definition(pos))
        }
        QuestionKind::References => {
            let pos = position_in(params)?;
            let declarations = declarations_in(params)?;
            Ok(Question::References(pos, declarations))
        }
        QuestionKind::Symbols => Ok(Question::Symbols),
        QuestionKind::Renamable => {
            let pos = position_in(params)?;
            Ok(Question::Renamable(pos))
        }
    }
}

/// What the params of a question say.
#[tactic(auto, unfolding(crate::specs::Questions::asked_in))]
fn asked_in<'a>(kind: QuestionKind, params: Option<&'a Value>) -> Result<Asked<'a>, ViewError>
    ensures { seen seen_asked result ≡ spec.asked_in kind (option_map (λ v. view v.now) params.entry) }
{
    let document = document_in(params)?;
    let uri = get_str(document, "uri")?;
    let question = question_in(kind, params)?;
    Ok(Asked { uri, question })
}

/// What is asked about which file.
#[tactic(auto, unfolding(crate::specs::Questions::about_in))]
pub(crate) fn about_in(
    alloc: Global,
    kind: QuestionKind,
    params: Option<&Value>,
) -> Result<About, Refusal>
    ensures { Answers (λ about. about) result (spec.about_in kind (option_map (λ v. view v.now) params.entry)) }
{
    let asked = match asked_in(kind, params) {
        Ok(asked) => asked,
        Err(error) => return Err(Refusal::of_params(error)),
    };
    match path_at(alloc, asked.uri) {
        Ok(path) => Ok(About {
            path,
            question: asked.question,
        }),
        Err(refusal) => Err(refusal),
    }
}
