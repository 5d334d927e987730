// The questions of a project, and their answers.
use crate::draft::Draft;
use crate::notation::type_named;
use crate::words::{path_named, token_named};
use shared_text::Name;
use std::alloc::{AllocError, Global};
use std::{io, mem};
use tok_data::{PpKind, PpToken, TokId};
use unit_index::{
    CrossFault, Index, IndexedUnit, UnitExports, are_apart, definition, hover_text, references,
    speaking, symbol_number, symbols, token_under,
};

/// The units of a project, and the one that is being told.
#[derive(Drop)]
pub struct Play {
    units: Vec<IndexedUnit>,
    draft: Draft,
}

fn push_tokens(alloc: Global, out: &mut String, tokens: &[TokId]) -> Result<(), AllocError> {
    for tok in tokens {
        let file = tok.file.as_str();
        let at = tok.at;
        let shown = format!(in alloc; " {file}:{at}")?;
        out.push_str(shown.as_str())?;
    }
    Ok(())
}

fn kind_of(letter: &str) -> PpKind {
    if letter == "i" {
        return PpKind::Ident;
    }
    PpKind::Punct
}

// The tokens and ranges that words tell, as far as they stand apart.
fn add_range(
    alloc: Global,
    tokens: &mut Vec<PpToken>,
    places: &mut Vec<(u32, u32)>,
    word: &str,
) -> Result<(), AllocError> {
    let Some((letter, range)) = word.split_at_checked(1) else {
        return Ok(());
    };
    let Some((start, end)) = range.split_once('-') else {
        return Ok(());
    };
    let spelling = Name::from_str(alloc, "")?;
    tokens.push(PpToken {
        kind: kind_of(letter),
        spelling,
        space_before: false,
        line_start: false,
    })?;
    places.push((
        start.parse::<u32>().unwrap_or(0),
        end.parse::<u32>().unwrap_or(0),
    ))?;
    Ok(())
}

// The number of the token under an offset: the first word, the ranges behind it.
fn under(alloc: Global, out: &mut String, words: &str) -> Result<(), AllocError> {
    let mut tokens = Vec::new(alloc);
    let mut places = Vec::new(alloc);
    let mut words = words.split_ascii_whitespace();
    let offset = words.next().unwrap_or("").parse::<u32>().unwrap_or(0);
    for word in words {
        add_range(alloc, &mut tokens, &mut places, word)?;
    }
    if places.len() >= 1000 || !are_apart(places.as_slice()) {
        return out.push_str(" not apart");
    }
    match token_under(tokens.as_slice(), places.as_slice(), offset) {
        Some(number) => {
            let shown = format!(in alloc; " {number}")?;
            out.push_str(shown.as_str())
        }
        None => out.push_str(" none"),
    }
}

// What the units show.
fn shown(alloc: Global, units: &[IndexedUnit]) -> Result<Vec<UnitExports<'_>>, AllocError> {
    let mut out = Vec::new(alloc);
    for unit in units {
        out.push(UnitExports {
            path: unit.path(),
            exports: unit.exports(),
        })?;
    }
    Ok(out)
}

// A warning: its unit where this isn't the text, the rule, the token and the message.
fn push_fault(alloc: Global, out: &mut String, fault: &CrossFault) -> Result<(), AllocError> {
    let unit = fault.unit.as_str();
    let rule = fault.fault.rule;
    let file = fault.fault.tok.file.as_str();
    let at = fault.fault.tok.at;
    let text = fault.fault.text.as_str();
    let shown = format!(in alloc; " [{unit} {rule} {file}:{at} {text}]")?;
    out.push_str(shown.as_str())
}

impl Play {
    pub fn new(alloc: Global) -> Play {
        Play {
            units: Vec::new(alloc),
            draft: Draft::new(alloc),
        }
    }

    // The unit that was being told is one of the project.
    fn settle(&mut self, alloc: Global) -> Result<(), AllocError> {
        let told = self.draft.unit(alloc)?;
        match told {
            Some(unit) => {
                self.units.push(unit)?;
                Ok(())
            }
            None => Ok(()),
        }
    }

    fn defined(&self, alloc: Global, out: &mut String, word: &str) -> Result<(), AllocError> {
        let tok = token_named(alloc, word)?;
        let tokens = definition(alloc, self.units.as_slice(), &tok)?;
        push_tokens(alloc, out, tokens.as_slice())
    }

    fn mentioned(
        &self,
        alloc: Global,
        out: &mut String,
        word: &str,
        declarations: bool,
    ) -> Result<(), AllocError> {
        let tok = token_named(alloc, word)?;
        let tokens = references(alloc, self.units.as_slice(), &tok, declarations)?;
        push_tokens(alloc, out, tokens.as_slice())
    }

    fn hovered(&self, alloc: Global, out: &mut String, word: &str) -> Result<(), AllocError> {
        let tok = token_named(alloc, word)?;
        let Some(speaker) = speaking(self.units.as_slice(), &tok) else {
            return out.push_str(" null");
        };
        let text = hover_text(alloc, speaker.entity, &speaker.unit.exports().tags)?;
        let path = speaker.unit.path().as_str();
        let text = text.as_str();
        let shown = format!(in alloc; " {text} ({path})")?;
        out.push_str(shown.as_str())
    }

    fn outlined(&self, alloc: Global, out: &mut String, word: &str) -> Result<(), AllocError> {
        let Some(path) = path_named(alloc, word)? else {
            return Ok(());
        };
        let list = symbols(alloc, self.units.as_slice(), &path)?;
        for symbol in list.as_slice() {
            let name = symbol.name.as_str();
            let number = symbol_number(symbol.kind);
            let at = symbol.tok.at;
            let shown = format!(in alloc; " {name}:{number}:{at}")?;
            out.push_str(shown.as_str())?;
        }
        Ok(())
    }

    fn crossed(&self, alloc: Global, out: &mut String) -> Result<(), AllocError> {
        let units = shown(alloc, self.units.as_slice())?;
        let index = Index::of(alloc, units.as_slice())?;
        let faults = index.cross_faults(alloc)?;
        for fault in faults.as_slice() {
            push_fault(alloc, out, fault)?;
        }
        Ok(())
    }

    // Whether a type of one unit is compatible with one of another: `PATH TYPE PATH TYPE`.
    fn compared(&self, alloc: Global, out: &mut String, words: &str) -> Result<(), AllocError> {
        let mut words = words.split_ascii_whitespace();
        let Some(left) = path_named(alloc, words.next().unwrap_or("/"))? else {
            return Ok(());
        };
        let a = type_named(alloc, words.next().unwrap_or("i"))?;
        let Some(right) = path_named(alloc, words.next().unwrap_or("/"))? else {
            return Ok(());
        };
        let b = type_named(alloc, words.next().unwrap_or("i"))?;
        let units = shown(alloc, self.units.as_slice())?;
        let index = Index::of(alloc, units.as_slice())?;
        if index.matches_across(alloc, &left, &a, &right, &b)? {
            return out.push_str(" yes");
        }
        out.push_str(" no")
    }

    // The answer to a question across units.
    fn answer_across(&self, alloc: Global, line: &str) -> Result<Option<String>, AllocError> {
        let mut out = String::new(alloc);
        if line == "across" {
            self.crossed(alloc, &mut out)?;
            return Ok(Some(out));
        }
        if let Some(words) = line.strip_prefix("matches ") {
            self.compared(alloc, &mut out, words)?;
            return Ok(Some(out));
        }
        Ok(None)
    }

    // The answer to a question, or none where the line asks nothing.
    fn answer(&self, alloc: Global, line: &str) -> Result<Option<String>, AllocError> {
        let mut out = String::new(alloc);
        if let Some(word) = line.strip_prefix("definition ") {
            self.defined(alloc, &mut out, word)?;
            return Ok(Some(out));
        }
        if let Some(word) = line.strip_prefix("references ") {
            self.mentioned(alloc, &mut out, word, true)?;
            return Ok(Some(out));
        }
        if let Some(word) = line.strip_prefix("uses ") {
            self.mentioned(alloc, &mut out, word, false)?;
            return Ok(Some(out));
        }
        if let Some(word) = line.strip_prefix("hover ") {
            self.hovered(alloc, &mut out, word)?;
            return Ok(Some(out));
        }
        if let Some(word) = line.strip_prefix("symbols ") {
            self.outlined(alloc, &mut out, word)?;
            return Ok(Some(out));
        }
        if let Some(words) = line.strip_prefix("under ") {
            under(alloc, &mut out, words)?;
            return Ok(Some(out));
        }
        self.answer_across(alloc, line)
    }

    fn tell(&mut self, alloc: Global, line: &str) -> Result<bool, AllocError> {
        if line == "project" {
            self.settle(alloc)?;
            self.units = Vec::new(alloc);
            return Ok(true);
        }
        if let Some(words) = line.strip_prefix("unit ") {
            self.settle(alloc)?;
            self.draft.read_paths(alloc, words)?;
            return Ok(true);
        }
        self.draft.take(alloc, line)
    }

    /// A line more.
    pub fn take(&mut self, rt: &HostRuntime, line: &str) -> io::Result<()> {
        if self.tell(rt.alloc(), line)? {
            return Ok(());
        }
        self.settle(rt.alloc())?;
        match self.answer(rt.alloc(), line)? {
            Some(answer) => {
                let answer = answer.as_str();
                println!(rt; "{line} ={answer}")
            }
            None => println!(rt; "{line}"),
        }
    }
}
