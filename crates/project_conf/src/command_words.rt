// The words of a command, in turn.
ghost use Rattle.std.specs.Prelude.{◌≡◌, ◌<◌, ◌≤◌, ◌∷◌, [], ◌++◌, length, unwrap_or, IfOk, IfSome, OnOk, MatchOption};
ghost use Rattle.std.specs.List.{prefix_len};
ghost use Rattle.std.specs.Str.{chars};
ghost use Rattle.std.specs.String.{string_bytes};
ghost use Rattle.project_conf.specs.Parting.{parted, at_end, all_words, all_behind, words_of};
ghost use Rattle.project_conf.specs.Runs.{stands};
ghost use Rattle.project_conf.specs.declared.parting.Mode.TheVariants.{Plain};

use crate::parting::{Act, Mode, stands, step};
use std::alloc::{AllocError, Global};

// The first character of a text, and what follows it.
fn split_first_char(text: &str) -> Option<(char, &str)>
    ensures points { MatchOption result (chars text.now ≡ []) (λ r. chars text.now ≡ r.0 ∷ chars r.1.now) }
    ensures shorter { MatchOption result (length text.now ≡ 0) (λ r. length r.1.now < length text.now) }
{
    let mut chars = text.chars();
    let c = chars.next()?;
    Some((c, chars.as_str()))
}

// What stands behind the spaces at the front, None where nothing does.
#[tactic(auto, using(crate::proofs::WordLemmas::space_parts, crate::proofs::WordLemmas::word_begins, crate::proofs::WordLemmas::no_words))]
fn behind_spaces(text: &str) -> Option<&str>
    ensures words { MatchOption result (words_of text.now ≡ []) (λ r. words_of text.now ≡ all_behind [] (parted Plain (chars r.now))) }
    ensures some { IfSome result (λ r. 0 < length r.now) }
    ensures within { IfSome result (λ r. length r.now ≤ length text.now) }
{
    let mut rest = text;
    while let Some((c, behind)) = split_first_char(rest) {
        if c != ' ' {
            return Some(rest);
        }
        rest = behind;
    }
    None
}

// How many bytes at the front of a text belong to characters that stand for themselves.
fn run_size(mode: Mode, text: &str) -> usize
    ensures { result ≡ prefix_len (stands mode) text.now }
{
    text.as_bytes()
        .iter()
        .take_while(|b| stands(mode, **b))
        .count()
}

// The characters at the front of a text that stand for themselves go behind a word; what follows them.
fn take_run<'a>(word: &mut String, mode: Mode, text: &'a str) -> Result<&'a str, AllocError>
    ensures words { IfOk result (λ behind. all_behind (string_bytes word.new) (parted mode (chars behind.now)) ≡ all_behind (string_bytes word.old) (parted mode (chars text.now))) }
    ensures within { IfOk result (λ behind. length behind.now ≤ length text.now) }
{
    let (run, behind) = text.split_at(run_size(mode, text));
    word.push_str(run)?;
    Ok(behind)
}

// A backslash at the end of a command stands for itself.
fn push_end(word: &mut String, mode: Mode) -> Result<(), AllocError>
    ensures { OnOk result (string_bytes word.new ≡ string_bytes word.old ++ unwrap_or (at_end mode).word []) }
{
    match mode {
        Mode::Escaped | Mode::DoubleEscaped => {
            word.push('\\')?;
            Ok(())
        }
        Mode::Plain | Mode::Single | Mode::Double => Ok(()),
    }
}

// The word that begins at the front of a text, and what stands behind it.
#[tactic(auto, using(crate::proofs::WordLemmas::word_parts, crate::proofs::WordLemmas::word_turns, crate::proofs::WordLemmas::word_keeps, crate::proofs::WordLemmas::word_keeps_both, crate::proofs::WordLemmas::word_ends))]
fn word_from<'a>(word: &mut String, text: &'a str) -> Result<&'a str, AllocError>
    ensures words { IfOk result (λ behind. all_behind [] (parted Plain (chars text.now)) ≡ string_bytes word.new ∷ words_of behind.now) }
    ensures shorter { IfOk result (λ behind. 0 < length text.now → length behind.now < length text.now) }
{
    word.clear();
    let mut mode = Mode::Plain;
    let mut rest = text;
    'word: loop {
        let after = take_run(word, mode, rest)?;
        let Some((c, behind)) = split_first_char(after) else {
            push_end(word, mode)?;
            return Ok(after);
        };
        match step(mode, c) {
            Act::Parts => return Ok(behind),
            Act::Turns(next) => {
                mode = next;
                rest = behind;
            }
            Act::Keeps(next) => {
                word.push(c)?;
                mode = next;
                rest = behind;
            }
            Act::KeepsBoth(next) => {
                word.push('\\')?;
                word.push(c)?;
                mode = next;
                rest = behind;
            }
        }
    }
}

/// The next word of a command, which takes the place of what `word` held, and what stands behind it; None where no word is left.
pub(crate) fn next_word<'a>(word: &mut String, text: &'a str) -> Result<Option<&'a str>, AllocError>
    ensures words { IfOk result (λ next. MatchOption next (words_of text.now ≡ []) (λ behind. words_of text.now ≡ string_bytes word.new ∷ words_of behind.now)) }
    ensures shorter { IfOk result (λ next. IfSome next (λ behind. length behind.now < length text.now)) }
{
    let Some(from) = behind_spaces(text) else {
        return Ok(None);
    };
    let behind = word_from(word, from)?;
    Ok(Some(behind))
}
