// `#define` and `#undef` (ISO C11 6.10.3, 6.10.3.5, 6.10.8p2).
ghost use Rattle.std.specs.Prelude.{◌≡◌, ◌++◌, [], map as list_map, IfOk, OnOk, option_map, bytes_eq, true};
ghost use Rattle.std.specs.List.{list_any};
ghost use Rattle.std.specs.FinMap as map;
ghost use Rattle.include_units.specs.Made as counts;
ghost use Rattle.include_units.specs.Definitions as spec;
ghost use Rattle.include_units.specs.Params.{param_names};

use crate::grown::Grown;
use crate::heads::{Head, head_of};
use crate::known::KnownNames;
use crate::made::{Made, fault};
use crate::tokens::{is_hash, is_ident, is_paste, is_word};
use macro_table::{Defined, MacroDef, Params};
use shared_text::Name;
use std::alloc::{AllocError, Global};
use tok_data::{MacroRole, OutToken, OutTokens, PpFault, TokId};

fn is_variable(text: &str) -> bool
    ensures { result ≡ spec.is_variable text.now }
{
    text == "__VA_ARGS__"
}

fn add_name_faults(
    alloc: Global,
    token: &OutToken,
    faults: &mut Grown<PpFault>,
) -> Result<(), AllocError>
    ensures { OnOk result (faults.new ≡ faults.old ++ spec.name_faults token.now) }
{
    if is_variable(token.spelling.as_str()) {
        let fault = fault(alloc, 209, &token.site, "")?;
        return faults.push(fault);
    }
    Ok(())
}

fn add_twice_faults(
    alloc: Global,
    seen: &KnownNames,
    token: &OutToken,
    faults: &mut Grown<PpFault>,
) -> Result<(), AllocError>
    ensures { OnOk result (faults.new ≡ faults.old ++ spec.twice_faults seen.now token.now) }
{
    let name = token.spelling.as_str();
    if seen.has(name) {
        let fault = fault(alloc, 210, &token.site, name)?;
        return faults.push(fault);
    }
    Ok(())
}

// What breaks the parameters; their names are given, found by their texts.
fn add_param_faults(
    alloc: Global,
    params: &[OutToken],
    faults: &mut Grown<PpFault>,
) -> Result<KnownNames, AllocError>
    ensures faults { OnOk result (faults.new ≡ faults.old ++ spec.param_faults [] params.now) }
    ensures names { IfOk result (λ names. names ≡ list_map (λ t. t.spelling) params.now) }
{
    let mut seen = KnownNames::new(alloc);
    let mut rest = params;
    while let Some((param, behind)) = rest.split_first() {
        rest = behind;
        add_name_faults(alloc, param, faults)?;
        add_twice_faults(alloc, &seen, param, faults)?;
        seen.push(param.spelling.as_str())?;
    }
    Ok(seen)
}

fn is_param_of(params: &Option<OutTokens>, names: &KnownNames, name: &str) -> bool
    requires { names.now ≡ param_names params.now }
    ensures { result ≡ spec.is_param_of params.now name.now }
{
    names.has(name)
}

// The token is a parameter.
fn is_parameter(head: &Head, names: &KnownNames, token: &OutToken) -> bool
    requires { names.now ≡ param_names head.now.params }
    ensures { result ≡ spec.is_parameter head.now token.now }
{
    if !is_ident(token.kind) {
        return false;
    }
    let name = token.spelling.as_str();
    if is_param_of(&head.params, names, name) {
        return true;
    }
    head.variadic && is_variable(name)
}

fn begins_parameter(head: &Head, names: &KnownNames, tokens: &[OutToken]) -> bool
    requires { names.now ≡ param_names head.now.params }
    ensures { result ≡ spec.begins_parameter head.now tokens.now }
{
    match tokens.split_first() {
        Some((token, _)) => is_parameter(head, names, token),
        None => false,
    }
}

// The rule that a token of a replacement list breaks, or 0.
#[tactic(auto, unfolding(crate::specs::Definitions::token_rule))]
fn token_rule(
    head: &Head,
    names: &KnownNames,
    first: bool,
    token: &OutToken,
    behind: &[OutToken],
) -> u16
    requires { names.now ≡ param_names head.now.params }
    ensures { result ≡ spec.token_rule head.now first token.now behind.now }
{
    if is_word("__VA_ARGS__", token) && !head.variadic {
        return 209;
    }
    if is_paste(token) {
        return paste_rule(first, behind);
    }
    if head.params.is_some() {
        return hash_rule(head, names, token, behind);
    }
    0
}

fn paste_rule(first: bool, behind: &[OutToken]) -> u16
    ensures { result ≡ spec.paste_rule first behind.now }
{
    if first {
        return 205;
    }
    match behind.split_first() {
        Some(_) => 0,
        None => 205,
    }
}

fn hash_rule(head: &Head, names: &KnownNames, token: &OutToken, behind: &[OutToken]) -> u16
    requires { names.now ≡ param_names head.now.params }
    ensures { result ≡ spec.hash_rule head.now token.now behind.now }
{
    if is_hash(token) && !begins_parameter(head, names, behind) {
        return 204;
    }
    0
}

fn add_token_fault(
    alloc: Global,
    rule: u16,
    tok: &TokId,
    faults: &mut Grown<PpFault>,
) -> Result<(), AllocError>
    ensures { OnOk result (faults.new ≡ faults.old ++ spec.rule_faults rule tok.now) }
{
    if rule == 0 {
        return Ok(());
    }
    let fault = fault(alloc, rule, tok, "")?;
    faults.push(fault)
}

fn add_body_faults(
    alloc: Global,
    head: &Head,
    names: &KnownNames,
    faults: &mut Grown<PpFault>,
) -> Result<(), AllocError>
    requires { names.now ≡ param_names head.now.params }
    ensures { OnOk result (faults.new ≡ faults.old ++ spec.body_faults head.now true head.now.body) }
{
    let mut first = true;
    let mut rest = head.body.as_slice();
    while let Some((token, behind)) = rest.split_first() {
        rest = behind;
        let rule = token_rule(head, names, first, token, behind);
        add_token_fault(alloc, rule, &token.site, faults)?;
        first = false;
    }
    Ok(())
}

fn add_params_faults(
    alloc: Global,
    params: &Option<OutTokens>,
    faults: &mut Grown<PpFault>,
) -> Result<KnownNames, AllocError>
    ensures faults { OnOk result (faults.new ≡ faults.old ++ spec.param_faults [] (spec.params_of params.now)) }
    ensures names { IfOk result (λ names. names ≡ param_names params.now) }
{
    match params {
        Some(params) => add_param_faults(alloc, params.as_slice(), faults),
        None => Ok(KnownNames::new(alloc)),
    }
}

// What breaks a definition that has a form.
fn faults_of(alloc: Global, name: &OutToken, head: &Head) -> Result<Grown<PpFault>, AllocError>
    ensures { IfOk result (λ faults. faults ≡ spec.faults_of name.now head.now) }
{
    let mut faults = Grown::new(alloc);
    add_name_faults(alloc, name, &mut faults)?;
    let names = add_params_faults(alloc, &head.params, &mut faults)?;
    add_body_faults(alloc, head, &names, &mut faults)?;
    Ok(faults)
}

static GUARDED: [&str; 12] = [
    "defined",
    "__LINE__",
    "__FILE__",
    "__STDC__",
    "__STDC_VERSION__",
    "__STDC_HOSTED__",
    "__STDC_NO_ATOMICS__",
    "__STDC_NO_COMPLEX__",
    "__STDC_NO_THREADS__",
    "__STDC_NO_VLA__",
    "__DATE__",
    "__TIME__",
];

fn is_among(table: &[&str], name: &str) -> bool
    ensures { result ≡ list_any (λ word. bytes_eq word.now name.now) table.now }
{
    table.iter().any(|word| *word == name)
}

#[tactic(auto, unfolding(crate::specs::Definitions::guarded))]
fn is_guarded_name(name: &str) -> bool
    ensures { result ≡ counts.is_one_of spec.guarded name.now }
{
    is_among(GUARDED.as_slice(), name)
}

// The lines with which the text of the given definitions begins define these names.
fn is_first_line(tok: &TokId) -> bool
    ensures { result ≡ spec.is_first_line tok.now }
{
    tok.file.as_str() == "<command>" && tok.at < 36
}

fn is_guarded(token: &OutToken) -> bool
    ensures { result ≡ spec.is_guarded token.now }
{
    is_guarded_name(token.spelling.as_str()) && !is_first_line(&token.site)
}

fn names_of(alloc: Global, params: &[OutToken]) -> Result<Params, AllocError>
    ensures { IfOk result (λ names. names ≡ list_map (λ t. t.spelling) params.now) }
{
    let mut names = Vec::new(alloc);
    for param in params {
        let name = param.spelling.share()?;
        names.push(name)?;
    }
    Ok(Params::from_vec(names))
}

fn params_named(alloc: Global, params: &Option<OutTokens>) -> Result<Option<Params>, AllocError>
    ensures { IfOk result (λ names. names ≡ spec.params_named params.now) }
{
    match params {
        Some(params) => {
            let names = names_of(alloc, params.as_slice())?;
            Ok(Some(names))
        }
        None => Ok(None),
    }
}

fn definition_of(alloc: Global, name: &OutToken, head: Head) -> Result<MacroDef, AllocError>
    ensures { IfOk result (λ def. def ≡ spec.definition_of name.now head) }
{
    let Head {
        params,
        variadic,
        body,
    } = head;
    let params = params_named(alloc, &params)?;
    let tok = name.site.copy()?;
    let name = name.spelling.share()?;
    Ok(MacroDef {
        name,
        tok,
        params,
        variadic,
        body,
    })
}

// A name that has another definition keeps it.
fn define_over(
    alloc: Global,
    name: &OutToken,
    def: MacroDef,
    made: &mut Made,
) -> Result<(), AllocError>
    requires { def.name ≡ name.now.spelling }
    ensures { OnOk result (made.new ≡ spec.define_over (map.get made.old.table name.now.spelling) name.now def made.old) }
{
    match made.table.define(def) {
        Ok(Defined::Fresh) => Ok(()),
        Ok(Defined::Same) => Ok(()),
        Ok(Defined::Clash(_)) => made.add_fault(alloc, 201, &name.site, name.spelling.as_str()),
        Err(error) => Err(error),
    }
}

fn define_head(
    alloc: Global,
    directive: &OutToken,
    name: &OutToken,
    head: Option<Head>,
    made: &mut Made,
) -> Result<(), AllocError>
    ensures { OnOk result (made.new ≡ spec.define_head directive.now name.now head made.old) }
{
    let Some(head) = head else {
        return made.add_fault(alloc, 221, &directive.site, "");
    };
    let faults = faults_of(alloc, name, &head)?;
    if faults.as_slice().is_empty() {
        let def = definition_of(alloc, name, head)?;
        return define_over(alloc, name, def, made);
    }
    made.faults.extend(faults.into_vec())
}

fn define_named(
    alloc: Global,
    directive: &OutToken,
    name: &OutToken,
    tokens: &[OutToken],
    made: &mut Made,
) -> Result<(), AllocError>
    ensures { OnOk result (made.new ≡ spec.define_named directive.now name.now tokens.now made.old) }
{
    if is_guarded(name) {
        return made.add_fault(alloc, 208, &name.site, name.spelling.as_str());
    }
    let head = head_of(alloc, tokens)?;
    define_head(alloc, directive, name, head, made)
}

// `#define`.
pub(crate) fn define_line(
    alloc: Global,
    directive: &OutToken,
    tokens: &[OutToken],
    made: &mut Made,
) -> Result<(), AllocError>
    ensures { OnOk result (made.new ≡ spec.define_line directive.now tokens.now made.old) }
{
    let Some((name, behind)) = tokens.split_first() else {
        return made.add_fault(alloc, 221, &directive.site, "");
    };
    if is_ident(name.kind) {
        define_named(alloc, directive, name, behind, made)?;
        return made.add_occurrence(MacroRole::Defines, name);
    }
    made.add_fault(alloc, 221, &directive.site, "")
}

fn undefine(
    alloc: Global,
    directive: &OutToken,
    name: &OutToken,
    behind: &[OutToken],
    made: &mut Made,
) -> Result<(), AllocError>
    ensures { OnOk result (made.new ≡ spec.undefined directive.now name.now behind.now made.old) }
{
    let None = behind.split_first() else {
        return made.add_fault(alloc, 221, &directive.site, "");
    };
    if is_guarded(name) {
        return made.add_fault(alloc, 208, &name.site, name.spelling.as_str());
    }
    made.table.undef(name.spelling.as_str());
    Ok(())
}

// `#undef`.
pub(crate) fn undef_line(
    alloc: Global,
    directive: &OutToken,
    tokens: &[OutToken],
    made: &mut Made,
) -> Result<(), AllocError>
    ensures { OnOk result (made.new ≡ spec.undef_line directive.now tokens.now made.old) }
{
    let Some((name, behind)) = tokens.split_first() else {
        return made.add_fault(alloc, 221, &directive.site, "");
    };
    if is_ident(name.kind) {
        made.add_occurrence(MacroRole::Undefines, name)?;
        return undefine(alloc, directive, name, behind, made);
    }
    made.add_fault(alloc, 221, &directive.site, "")
}
