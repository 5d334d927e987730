// A case: the texts of a project, and how a unit is read.
use c_tokens::lex;
use include_units::{
    FileAnswer, Go, PpTokens, TextPlaces, Unit, UnitTokens, Want, are_usable, is_short,
};
use percent_encoding::percent_decode;
use project_conf::{Define, Defines, IncludePaths, UnitConf};
use shared_text::Name;
use std::alloc::{AllocError, Global};
use uri_paths::Path;

#[derive(Drop)]
pub struct Case {
    includes: Vec<Path>,
    defines: Vec<Define>,
    files: Vec<(Path, String)>,
    brief: bool,
}

fn decoded(alloc: Global, text: &str) -> Result<String, AllocError> {
    let mut bytes = Vec::new(alloc);
    percent_decode(text.as_bytes()).append_to(&mut bytes)?;
    match String::from_utf8(bytes) {
        Ok(text) => Ok(text),
        Err(_) => Ok(String::new(alloc)),
    }
}

fn text_at<'a>(files: &'a [(Path, String)], path: &Path) -> Option<&'a str> {
    for file in files {
        if file.0 == *path {
            return Some(file.1.as_str());
        }
    }
    None
}

fn tell(unit: &mut Unit, path: Path, answer: FileAnswer) -> Result<bool, AllocError> {
    if !is_short(&answer) {
        return Ok(false);
    }
    unit.tell(path, answer)?;
    Ok(true)
}

fn tokens_of(alloc: Global, text: &str) -> Result<FileAnswer, AllocError> {
    if text.len() > 4_000_000_000 {
        return Ok(FileAnswer::Absent);
    }
    let lexed = lex(alloc, text)?;
    let tokens = PpTokens::from_vec(alloc, lexed.tokens.into_vec())?;
    Ok(FileAnswer::Tokens(tokens))
}

fn places_of(alloc: Global, text: &str) -> Result<FileAnswer, AllocError> {
    if text.len() > 4_000_000_000 {
        return Ok(FileAnswer::Absent);
    }
    let lexed = lex(alloc, text)?;
    let (_tokens, places) = lexed.split(alloc, text)?;
    let places = TextPlaces::from_places(alloc, places)?;
    Ok(FileAnswer::Lines(places))
}

fn is_there(files: &[(Path, String)], path: &Path) -> FileAnswer {
    match text_at(files, path) {
        Some(_) => FileAnswer::There,
        None => FileAnswer::Absent,
    }
}

// Tells what is wanted; false where a text that is wanted isn't there.
fn answer(
    alloc: Global,
    files: &[(Path, String)],
    want: Want,
    unit: &mut Unit,
) -> Result<bool, AllocError> {
    match want {
        Want::Exists(path) => {
            let there = is_there(files, &path);
            tell(unit, path, there)
        }
        Want::Text(path) => match text_at(files, &path) {
            Some(text) => {
                let tokens = tokens_of(alloc, text)?;
                tell(unit, path, tokens)
            }
            None => Ok(false),
        },
        Want::Lines(path) => match text_at(files, &path) {
            Some(text) => {
                let places = places_of(alloc, text)?;
                tell(unit, path, places)
            }
            None => Ok(false),
        },
    }
}

fn answer_all(
    alloc: Global,
    files: &[(Path, String)],
    wants: Vec<Want>,
    unit: &mut Unit,
) -> Result<bool, AllocError> {
    for want in wants {
        if !answer(alloc, files, want, unit)? {
            return Ok(false);
        }
    }
    Ok(true)
}

// Goes on until the unit is read, and tells what it wants; a path that the case doesn't have has no text. None where the unit
// can't begin, and where its own text isn't there.
fn read(
    alloc: Global,
    conf: &UnitConf,
    files: &[(Path, String)],
) -> Result<Option<UnitTokens>, AllocError> {
    if !are_usable(conf.defines.as_slice()) {
        return Ok(None);
    }
    let mut unit = Unit::start(alloc, conf)?;
    for _ in 0..100_000_000u32 {
        match unit.go()? {
            Go::Done(tokens) => return Ok(Some(tokens)),
            Go::Need(wants) => {
                if !answer_all(alloc, files, wants.into_vec(), &mut unit)? {
                    return Ok(None);
                }
            }
        }
    }
    Ok(None)
}

impl Case {
    pub fn new(alloc: Global) -> Case {
        Case {
            includes: Vec::new(alloc),
            defines: Vec::new(alloc),
            files: Vec::new(alloc),
            brief: false,
        }
    }

    pub fn is_brief(&self) -> bool {
        self.brief
    }

    pub fn take_line(&mut self, alloc: Global, line: &str) -> Result<(), AllocError> {
        if line == "brief" {
            self.brief = true;
            return Ok(());
        }
        let Some((word, rest)) = line.split_once(' ') else {
            return Ok(());
        };
        match word {
            "include" => self.add_folder(alloc, rest),
            "set" => self.add_definition(alloc, rest),
            "unset" => self.add_undefined(alloc, rest),
            "text" => self.add_text(alloc, rest),
            _ => Ok(()),
        }
    }

    fn add_folder(&mut self, alloc: Global, text: &str) -> Result<(), AllocError> {
        if let Some(path) = Path::read(alloc, text)? {
            self.includes.push(path)?;
        }
        Ok(())
    }

    fn add_definition(&mut self, alloc: Global, line: &str) -> Result<(), AllocError> {
        let Some((name, text)) = line.split_once(' ') else {
            return Ok(());
        };
        let name = Name::from_str(alloc, name)?;
        let text = decoded(alloc, text)?;
        let text = Name::from_str(alloc, text.as_str())?;
        self.defines.push(Define::Set(name, text))?;
        Ok(())
    }

    fn add_undefined(&mut self, alloc: Global, name: &str) -> Result<(), AllocError> {
        let name = Name::from_str(alloc, name)?;
        self.defines.push(Define::Unset(name))?;
        Ok(())
    }

    fn add_text(&mut self, alloc: Global, line: &str) -> Result<(), AllocError> {
        let Some((path, text)) = line.split_once(' ') else {
            return Ok(());
        };
        let path = decoded(alloc, path)?;
        let text = decoded(alloc, text)?;
        if let Some(path) = Path::read(alloc, path.as_str())? {
            self.files.push((path, text))?;
        }
        Ok(())
    }

    /// The tokens of the unit of this path.
    pub fn unit(self, alloc: Global, path: &str) -> Result<Option<UnitTokens>, AllocError> {
        let Case {
            includes,
            defines,
            files,
            brief: _,
        } = self;
        match Path::read(alloc, path)? {
            Some(file) => {
                let conf = UnitConf {
                    file,
                    includes: IncludePaths::from_vec(includes),
                    defines: Defines::from_vec(defines),
                };
                read(alloc, &conf, files.as_slice())
            }
            None => Ok(None),
        }
    }
}
