// The messages of the rules of preprocessing.
ghost use Rattle.std.specs.Prelude.{◌≡◌, option_map, IfOk};
ghost use Rattle.plain_mean.specs.Messages.{front_of, behind_of, is_warning, message};

use shared_text::Name;
use std::alloc::{AllocError, Global};

#[tactic(auto, unfolding(crate::specs::Messages::front_of))]
fn front_of(rule: u16) -> &'static str
    ensures { result.now ≡ front_of rule }
{
    if rule == 101 {
        return "open comment";
    }
    if rule == 102 {
        return "open literal";
    }
    if rule == 103 {
        return "stray character";
    }
    if rule == 201 {
        return "macro ";
    }
    if rule == 202 {
        return "macro ";
    }
    if rule == 203 {
        return "macro ";
    }
    if rule == 204 {
        return "# without a parameter";
    }
    if rule == 205 {
        return "## at an end";
    }
    if rule == 206 {
        return "## makes no token";
    }
    if rule == 207 {
        return "too many replacements";
    }
    if rule == 208 {
        return "";
    }
    if rule == 209 {
        return "__VA_ARGS__ out of place";
    }
    if rule == 210 {
        return "macro parameter ";
    }
    if rule == 211 {
        return "macro ";
    }
    if rule == 221 {
        return "bad directive";
    }
    if rule == 222 {
        return "";
    }
    if rule == 223 {
        return "include depth";
    }
    if rule == 224 {
        return "bad #if expression";
    }
    if rule == 225 {
        return "no open #if";
    }
    if rule == 226 {
        return "open #if";
    }
    if rule == 227 {
        return "#error ";
    }
    if rule == 228 {
        return "too many tokens";
    }
    "extra tokens"
}

#[tactic(auto, unfolding(crate::specs::Messages::behind_of))]
fn behind_of(rule: u16) -> Option<&'static str>
    ensures { option_map (λ text. text.now) result ≡ behind_of rule }
{
    if rule == 201 {
        return Some(" redefined");
    }
    if rule == 202 {
        return Some(": wrong number of arguments");
    }
    if rule == 203 {
        return Some(": open argument list");
    }
    if rule == 208 {
        return Some(" may not be defined");
    }
    if rule == 210 {
        return Some(" twice");
    }
    if rule == 211 {
        return Some(": no variable argument");
    }
    if rule == 222 {
        return Some(" not found");
    }
    if rule == 227 {
        return Some("");
    }
    None
}

/// Whether a rule is a warning (LSP 3.17, DiagnosticSeverity); the others are errors.
pub fn is_warning(rule: u16) -> bool
    ensures { result ≡ is_warning rule }
{
    ((rule == 211 || rule == 230) || (rule == 801 || rule == 802)) || fault_texts::is_warning(rule)
}

/// The message of a rule, with the text that it prints.
pub(crate) fn message(alloc: Global, rule: u16, text: &str) -> Result<Name, AllocError>
    ensures { IfOk result (λ name. name ≡ message rule text.now) }
{
    let front = front_of(rule);
    match behind_of(rule) {
        None => Name::from_str(alloc, front),
        Some(behind) => {
            let whole = format!(in alloc; "{front}{text}{behind}")?;
            let name = Name::from_str(alloc, whole.as_str())?;
            Ok(name)
        }
    }
}
