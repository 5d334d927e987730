// Answers to what a unit asks of files, by the texts of a session.
ghost use Rattle.std.specs.Prelude.{◌≡◌, ◌∷◌, [], map, IfOk, OnOk};
ghost use Rattle.asking.specs.Laws.{IsEntryOf};
ghost use Rattle.include_units.specs.Coming.{IsShortAnswer, question};
ghost use Rattle.include_units.specs.Files.{Exists, Lines, Text, files};
ghost use Rattle.plain_mean.specs.Given.{HasTold, given};
ghost use Rattle.plain_mean.specs.Renewed.{path_of};

use crate::lexings::Lexings;
use doc_texts::Docs;
use include_units::{FileAnswer, Unit, Want};
use std::alloc::AllocError;
use uri_paths::Path;

fn held(docs: &Docs, path: &Path) -> FileAnswer
    ensures entry { IsEntryOf files (given docs.now) (Exists path.now) (path.now, result) }
    ensures short { IsShortAnswer result }
{
    match docs.text(path) {
        Some(_) => FileAnswer::There,
        None => FileAnswer::Absent,
    }
}

fn tokens_of(lexings: &mut Lexings<'_>, path: &Path) -> Result<FileAnswer, AllocError>
    ensures entry { IfOk result (λ answer. IsEntryOf files (given lexings.old) (Text path.now) (path.now, answer)) }
    ensures short { IfOk result (λ answer. IsShortAnswer answer) }
    ensures same { lexings.new ≡ lexings.old }
{
    let lexed = lexings.at(path)?;
    Ok(FileAnswer::Tokens(lexed.tokens))
}

fn lines_of(lexings: &mut Lexings<'_>, path: &Path) -> Result<FileAnswer, AllocError>
    ensures entry { IfOk result (λ answer. IsEntryOf files (given lexings.old) (Lines path.now) (path.now, answer)) }
    ensures short { IfOk result (λ answer. IsShortAnswer answer) }
    ensures same { lexings.new ≡ lexings.old }
{
    let lexed = lexings.at(path)?;
    Ok(FileAnswer::Lines(lexed.places))
}

fn answer_to(lexings: &mut Lexings<'_>, want: &Want) -> Result<FileAnswer, AllocError>
    ensures entry { IfOk result (λ answer. IsEntryOf files (given lexings.old) (question want.now) (path_of (question want.now), answer)) }
    ensures short { IfOk result (λ answer. IsShortAnswer answer) }
    ensures same { lexings.new ≡ lexings.old }
{
    match want {
        Want::Exists(path) => {
            let answer = held(lexings.docs(), path);
            Ok(answer)
        }
        Want::Text(path) => {
            let answer = tokens_of(lexings, path)?;
            Ok(answer)
        }
        Want::Lines(path) => {
            let answer = lines_of(lexings, path)?;
            Ok(answer)
        }
    }
}

pub(crate) fn path_of(want: &Want) -> &Path
    ensures { result.now ≡ path_of (question want.now) }
{
    match want {
        Want::Exists(path) => path,
        Want::Text(path) => path,
        Want::Lines(path) => path,
    }
}

// Tells a unit what it wants, and nothing else.
fn tell(lexings: &mut Lexings<'_>, want: &Want, unit: &mut Unit) -> Result<(), AllocError>
    ensures told { OnOk result (HasTold lexings.old unit.old.answers unit.new.answers (question want.now ∷ [])) }
    ensures same { lexings.new ≡ lexings.old }
    ensures conf { OnOk result (unit.new.conf ≡ unit.old.conf) }
{
    let answer = answer_to(lexings, want)?;
    let path = path_of(want).share()?;
    unit.tell(path, answer)?;
    Ok(())
}

// Tells a unit all that it wants, in order.
pub(crate) fn tell_all(
    lexings: &mut Lexings<'_>,
    wants: &[Want],
    unit: &mut Unit,
) -> Result<(), AllocError>
    ensures told { OnOk result (HasTold lexings.old unit.old.answers unit.new.answers (map question wants.now)) }
    ensures same { lexings.new ≡ lexings.old }
    ensures conf { OnOk result (unit.new.conf ≡ unit.old.conf) }
{
    let mut rest = wants;
    'wants: while let Some((want, behind)) = rest.split_first() {
        rest = behind;
        tell(lexings, want, unit)?;
    }
    Ok(())
}
