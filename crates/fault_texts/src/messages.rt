// The words of the message of each rule.
ghost use Rattle.std.specs.Prelude.{◌≡◌, option_map};
ghost use Rattle.fault_texts.specs.Messages as spec;

// Rules of trees and of constants (6.4, 6.5 to 6.9).
#[tactic(auto, unfolding(crate::specs::Messages::front_lexical))]
fn front_lexical(rule: u16) -> &'static str
    ensures { result.now ≡ spec.front_lexical rule }
{
    if rule == 301 {
        return "syntax";
    }
    if rule == 302 {
        return "empty item";
    }
    if rule == 303 {
        return "brackets too deep";
    }
    if rule == 304 {
        return "left out: ";
    }
    if rule == 311 {
        return "integer constant too large";
    }
    if rule == 312 {
        return "bad number";
    }
    if rule == 313 {
        return "bad character constant";
    }
    if rule == 314 {
        return "bad escape";
    }
    if rule == 315 {
        return "string prefixes differ";
    }
    ""
}

// Rules of declarations (6.7, 6.9).
#[tactic(auto, unfolding(crate::specs::Messages::front_declared))]
fn front_declared(rule: u16) -> &'static str
    ensures { result.now ≡ spec.front_declared rule }
{
    if rule == 401 {
        return "declares nothing";
    }
    if rule == 404 {
        return "typedef ";
    }
    if rule == 405 {
        return "several storage classes";
    }
    if rule == 406 {
        return "storage class not allowed here";
    }
    if rule == 407 {
        return "type specifiers don't combine";
    }
    if rule == 408 {
        return "member ";
    }
    if rule == 409 {
        return "bad bit-field ";
    }
    if rule == 411 {
        return "enumerator ";
    }
    if rule == 412 || rule == 413 {
        return "tag ";
    }
    if rule == 414 {
        return "enum ";
    }
    if rule == 415 {
        return "restrict on ";
    }
    if rule == 416 {
        return "function specifier on no function";
    }
    if rule == 417 {
        return "bad alignment";
    }
    if rule == 418 {
        return "array of ";
    }
    if rule == 419 {
        return "bad array size";
    }
    if rule == 420 {
        return "qualified array out of a parameter";
    }
    if rule == 421 {
        return "function returning ";
    }
    if rule == 422 {
        return "parameter of type ";
    }
    if rule == 425 {
        return "too many initializers";
    }
    if rule == 426 {
        return "bad designator";
    }
    if rule == 427 {
        return "initializer isn't constant";
    }
    if rule == 428 {
        return "can't initialize ";
    }
    if rule == 429 {
        return "static assertion: ";
    }
    if rule == 431 {
        return "body without a function declarator";
    }
    if rule == 432 {
        return "parameter without a name";
    }
    if rule == 435 {
        return "bad _Thread_local";
    }
    ""
}

// Rules of expressions (6.5, 6.6).
#[tactic(auto, unfolding(crate::specs::Messages::front_judged))]
fn front_judged(rule: u16) -> &'static str
    ensures { result.now ≡ spec.front_judged rule }
{
    if rule == 501 {
        return "";
    }
    if rule == 502 || rule == 506 {
        return "bad operands";
    }
    if rule == 509 {
        return "no member ";
    }
    if rule == 530 {
        return "not an integer constant expression";
    }
    if rule == 531 {
        return "constant out of range";
    }
    if rule == 532 {
        return "floating constant isn't evaluated";
    }
    "bad operands: "
}

// Rules of statements (6.8).
#[tactic(auto, unfolding(crate::specs::Messages::front_stated))]
fn front_stated(rule: u16) -> &'static str
    ensures { result.now ≡ spec.front_stated rule }
{
    if rule == 601 {
        return "label ";
    }
    if rule == 602 {
        return "outside a switch";
    }
    if rule == 603 {
        return "condition of type ";
    }
    if rule == 604 {
        return "switch on ";
    }
    if rule == 606 {
        return "case value twice";
    }
    if rule == 607 {
        return "default twice";
    }
    if rule == 608 {
        return "loop condition of type ";
    }
    if rule == 609 {
        return "storage class in for";
    }
    if rule == 610 {
        return "no label ";
    }
    if rule == 611 {
        return "continue outside a loop";
    }
    if rule == 612 {
        return "break outside a loop or switch";
    }
    if rule == 613 {
        return "value returned from void";
    }
    if rule == 614 {
        return "no value returned";
    }
    if rule == 615 {
        return "can't return ";
    }
    ""
}

// Rules at the end of a unit (6.9).
#[tactic(auto, unfolding(crate::specs::Messages::front_ended))]
fn front_ended(rule: u16) -> &'static str
    ensures { result.now ≡ spec.front_ended rule }
{
    if rule == 701 {
        return "static ";
    }
    ""
}

// What stands in front of the name that a rule prints, or of its types.
pub(crate) fn front_of(rule: u16) -> &'static str
    ensures { result.now ≡ spec.front_of rule }
{
    if rule < 400 {
        return front_lexical(rule);
    }
    if rule < 500 {
        return front_declared(rule);
    }
    if rule < 600 {
        return front_judged(rule);
    }
    if rule < 700 {
        return front_stated(rule);
    }
    front_ended(rule)
}

#[tactic(auto, unfolding(crate::specs::Messages::behind_lexical))]
fn behind_lexical(rule: u16) -> Option<&'static str>
    ensures { option_map (λ text. text.now) result ≡ spec.behind_lexical rule }
{
    if rule == 304 {
        return Some("");
    }
    None
}

#[tactic(auto, unfolding(crate::specs::Messages::behind_declared))]
fn behind_declared(rule: u16) -> Option<&'static str>
    ensures { option_map (λ text. text.now) result ≡ spec.behind_declared rule }
{
    if rule == 402 {
        return Some(" declared twice");
    }
    if rule == 403 || rule == 404 {
        return Some(" is ");
    }
    if rule == 408 {
        return Some(" of type ");
    }
    if rule == 409 || rule == 429 {
        return Some("");
    }
    if rule == 411 {
        return Some(" out of int");
    }
    if rule == 412 {
        return Some(" of another kind");
    }
    if rule == 413 {
        return Some(" defined twice");
    }
    if rule == 414 {
        return Some(" isn't complete");
    }
    if rule == 423 {
        return Some(" has incomplete type ");
    }
    if rule == 424 {
        return Some(" can't be initialized");
    }
    if rule == 430 {
        return Some(" has internal and external linkage");
    }
    None
}

#[tactic(auto, unfolding(crate::specs::Messages::behind_judged))]
fn behind_judged(rule: u16) -> Option<&'static str>
    ensures { option_map (λ text. text.now) result ≡ spec.behind_judged rule }
{
    if rule == 501 {
        return Some(" isn't declared");
    }
    if rule == 509 {
        return Some("");
    }
    None
}

#[tactic(auto, unfolding(crate::specs::Messages::behind_stated))]
fn behind_stated(rule: u16) -> Option<&'static str>
    ensures { option_map (λ text. text.now) result ≡ spec.behind_stated rule }
{
    if rule == 601 {
        return Some(" twice");
    }
    if rule == 610 {
        return Some("");
    }
    None
}

#[tactic(auto, unfolding(crate::specs::Messages::behind_ended))]
fn behind_ended(rule: u16) -> Option<&'static str>
    ensures { option_map (λ text. text.now) result ≡ spec.behind_ended rule }
{
    if rule == 701 {
        return Some(" used and not defined");
    }
    if rule == 702 {
        return Some(" defined twice");
    }
    if rule == 703 {
        return Some(" incomplete at the end");
    }
    None
}

// What stands behind the name, where a rule prints one.
pub(crate) fn behind_of(rule: u16) -> Option<&'static str>
    ensures { option_map (λ text. text.now) result ≡ spec.behind_of rule }
{
    if rule < 400 {
        return behind_lexical(rule);
    }
    if rule < 500 {
        return behind_declared(rule);
    }
    if rule < 600 {
        return behind_judged(rule);
    }
    if rule < 700 {
        return behind_stated(rule);
    }
    behind_ended(rule)
}

// What stands between two types.
#[tactic(auto, unfolding(crate::specs::Messages::between))]
pub(crate) fn between(rule: u16) -> &'static str
    ensures { result.now ≡ spec.between rule }
{
    if rule == 403 || rule == 404 {
        return ", was ";
    }
    if rule == 428 {
        return " from ";
    }
    if rule == 615 {
        return " as ";
    }
    ", "
}

/// Whether a rule of trees, declarations, expressions, statements and ends of units (301 to 703) is a warning (LSP 3.17,
/// DiagnosticSeverity); the others are errors.
pub fn is_warning(rule: u16) -> bool
    ensures { result ≡ spec.is_warning rule }
{
    rule == 302 || rule == 532
}
