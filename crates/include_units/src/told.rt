// What is told of files.
ghost use Rattle.std.specs.Prelude.{◌≡◌, ◌≤◌, ◌++◌, ◌∷◌, [], ℕ, List, option_map, length, IfSome, OnOk, OnErr};
ghost use Rattle.std.specs.HashMap.{get_by_text};
ghost use Rattle.std.specs.Option.{option_or};
ghost use Rattle.asking.specs.LookUps.{look_up};
ghost use Rattle.include_units.specs.Coming.{IsShortAnswer};
ghost use Rattle.include_units.specs.Files as spec;

use crate::firsts::put;
use crate::shared::{PpTokens, TextPlaces};
use crate::types::FileAnswer;
use std::alloc::{AllocError, Global};
use std::collections::HashMap;
use std::marker::Model;
use uri_paths::Path;

// Answers in the order in which they were told, looked up by their paths: the first one of its kind counts.
#[derive(Drop)]
pub(crate) struct Told {
    alloc: Global,
    answers: Vec<(Path, FileAnswer)>,
    held: HashMap<String, bool>,
    texts: HashMap<String, PpTokens>,
    lines: HashMap<String, TextPlaces>,
}

impl Model for Told {
    ghost use Rattle.std.specs.Prelude.{◌≡◌, ℕ, List};
    ghost use Rattle.std.specs.HashMap.{get_by_text};
    ghost use Rattle.asking.specs.LookUps.{look_up};
    ghost use Rattle.include_units.specs.declared.types.FileAnswer.{FileAnswer};

    ghost Value = { List (List ℕ × FileAnswer) };

    ghost view = { λ t. t.answers.items };

    ghost use Rattle.include_units.specs.Coming.{AreShort};
    ghost use Rattle.include_units.specs.Files.{files, Exists, Text, Lines};

    ghost invariant = { λ t. ((path : List ℕ) → get_by_text t.held path ≡ look_up files t.answers.items (Exists path))
        × ((path : List ℕ) → get_by_text t.texts path ≡ look_up files t.answers.items (Text path))
        × ((path : List ℕ) → get_by_text t.lines path ≡ look_up files t.answers.items (Lines path))
        × AreShort t.answers.items };
}

// Enters what an answer says of a path.
fn enter(
    alloc: Global,
    held: &mut HashMap<String, bool>,
    texts: &mut HashMap<String, PpTokens>,
    lines: &mut HashMap<String, TextPlaces>,
    path: &str,
    answer: &FileAnswer,
) -> Result<(), AllocError>
    ensures held { OnOk result ((q : List ℕ) → get_by_text held.new q ≡ option_or (get_by_text held.old q) (spec.reads (spec.Exists q) (path.now, answer.now))) }
    ensures texts { OnOk result ((q : List ℕ) → get_by_text texts.new q ≡ option_or (get_by_text texts.old q) (spec.reads (spec.Text q) (path.now, answer.now))) }
    ensures lines { OnOk result ((q : List ℕ) → get_by_text lines.new q ≡ option_or (get_by_text lines.old q) (spec.reads (spec.Lines q) (path.now, answer.now))) }
    ensures held_kept { OnErr result ((q : List ℕ) → get_by_text held.new q ≡ get_by_text held.old q) }
    ensures texts_kept { OnErr result ((q : List ℕ) → get_by_text texts.new q ≡ get_by_text texts.old q) }
    ensures lines_kept { OnErr result ((q : List ℕ) → get_by_text lines.new q ≡ get_by_text lines.old q) }
{
    match answer {
        FileAnswer::Absent => put(alloc, held, path, false),
        FileAnswer::There => put(alloc, held, path, true),
        FileAnswer::Tokens(tokens) => {
            let tokens = tokens.share()?;
            put(alloc, texts, path, tokens)
        }
        FileAnswer::Lines(places) => {
            let places = places.share()?;
            put(alloc, lines, path, places)
        }
    }
}

impl Told {
    pub(crate) fn new(alloc: Global) -> Told
        ensures { result ≡ [] }
    {
        Told {
            alloc,
            answers: Vec::new(alloc),
            held: HashMap::new(alloc),
            texts: HashMap::new(alloc),
            lines: HashMap::new(alloc),
        }
    }

    // One answer more.
    pub(crate) fn tell(&mut self, path: Path, answer: FileAnswer) -> Result<(), AllocError>
        requires { IsShortAnswer answer }
        ensures told { OnOk result (self.new ≡ self.old ++ (path, answer) ∷ []) }
        ensures kept { OnErr result (self.new ≡ self.old) }
    {
        self.answers.reserve(1)?;
        enter(
            self.alloc,
            &mut self.held,
            &mut self.texts,
            &mut self.lines,
            path.as_str(),
            &answer,
        )?;
        self.answers.push_reserved((path, answer));
        Ok(())
    }
}

// Whether a text is held at a path, where that is told.
pub(crate) fn held_at(files: &Told, path: &Path) -> Option<bool>
    ensures { result ≡ look_up spec.files files.now (spec.Exists path.now) }
{
    files.held.get(path.as_str()).copied()
}

// The tokens of the text at a path, where they are told.
pub(crate) fn tokens_at<'a>(files: &'a Told, path: &Path) -> Option<&'a PpTokens>
    ensures value { option_map (λ ts. ts.now) result ≡ look_up spec.files files.now (spec.Text path.now) }
    ensures short { IfSome result (λ ts. length ts.now ≤ 4290772992) }
{
    match files.texts.get(path.as_str()) {
        Some(tokens) => Some(tokens),
        None => None,
    }
}

// The places of the tokens of the text at a path, where they are told.
pub(crate) fn places_at<'a>(files: &'a Told, path: &Path) -> Option<&'a TextPlaces>
    ensures { option_map (λ p. p.now) result ≡ look_up spec.files files.now (spec.Lines path.now) }
{
    files.lines.get(path.as_str())
}
