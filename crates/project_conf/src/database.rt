// The database of compilations.
ghost use Rattle.std.specs.Prelude.{◌≡◌, ◌≢◌, ◌<◌, ◌≤◌, ◌++◌, ℕ, map, length, List, Ok, Err, None, Some, is_some, option_map, codes, if◌then◌else◌, All, IfOk, OnOk, IfErr, IfSome, MatchOption};
ghost use Rattle.serde_json.specs.Find.{get, as_str};
ghost use Rattle.serde_json.specs.Read.{read};
ghost use Rattle.serde_json.specs.View.{view, items_of};
ghost use Rattle.project_conf.specs.Defines.{AreUsable};
ghost use Rattle.project_conf.specs.Parting.{words_of};
ghost use Rattle.project_conf.specs.Settings.{folders_said, defines_said};
ghost use Rattle.project_conf.specs.Database.{text_at, path_at, texts_in, words_in, unit_of, units_from, units_in, units_of};
ghost use Rattle.project_conf.specs.Entries.{refusal};
ghost use Rattle.project_conf.specs.Weights.{weight};
ghost use Rattle.project_conf.specs.declared.database.ConfError.TheVariants.{NotJson, NoMemory};

use crate::command_words::next_word;
use crate::conf::{IncludePaths, UnitConf, UnitConfs};
use crate::directory::Directory;
use crate::options::Defines;
use crate::settings::{Settings, take_word};
use serde_json::Value;
use std::alloc::{AllocError, Global};
use thiserror::Error;
use uri_paths::{Path, within};

/// Why a text is no database: the first of these that holds, in this order, or want of memory.
#[derive(Clone, Copy, Debug, PartialEq, Eq, Error)]
pub enum ConfError {
    /// No JSON value is read from it.
    #[error("the database is no JSON")]
    NotJson,
    /// The value is no array.
    #[error("the database is no array")]
    NotArray,
    /// The entry of this number, from 0, is the first that isn't an object with a `directory`, a `file` and `arguments` or a
    /// `command`, or whose `directory` or `file` goes above `/`.
    #[error("entry {0} of the database is faulty")]
    Entry(u32),
    #[error("out of memory")]
    NoMemory,
}

impl ConfError {
    /// What is shown of it: the refusal's name alone.
    pub fn name(&self) -> &'static str
        ensures { result.now ≡ refusal self.now }
    {
        match self {
            ConfError::NotJson => "NotJson",
            ConfError::NotArray => "NotArray",
            ConfError::Entry(_) => "Entry",
            ConfError::NoMemory => "NoMemory",
        }
    }
}

impl From<AllocError> for ConfError {
    ghost use Rattle.std.specs.Prelude.{◌≡◌};
    ghost use Rattle.project_conf.specs.declared.database.ConfError.TheVariants.{NoMemory};

    ghost from_gives = { λ _ e. e ≡ NoMemory };

    fn from(_: AllocError) -> ConfError {
        ConfError::NoMemory
    }
}

fn text_at<'a>(entry: &'a Value, key: &'static str) -> Option<&'a str>
    ensures { option_map (λ text. text.now) result ≡ text_at key.now (view entry.now) }
{
    entry.get(key)?.as_str()
}

// The path that a member means in a folder.
fn path_at(
    alloc: Global,
    folder: &Path,
    key: &'static str,
    entry: &Value,
) -> Result<Option<Path>, AllocError>
    ensures { IfOk result (λ path. path ≡ path_at folder.now key.now (view entry.now)) }
{
    let Some(text) = text_at(entry, key) else {
        return Ok(None);
    };
    within(alloc, folder, text)
}

// What the words of a command say.
fn read_command(
    alloc: Global,
    directory: &mut Directory,
    command: &str,
) -> Result<Settings, AllocError>
    ensures includes { IfOk result (λ s. s.includes.items ≡ folders_said directory.old (words_of command.now)) }
    ensures defines { IfOk result (λ s. s.defines.items ≡ defines_said (words_of command.now)) }
    ensures same { directory.new ≡ directory.old }
{
    let mut settings = Settings::none(alloc);
    let mut word = String::new(alloc);
    let mut rest = command;
    loop {
        let Some(behind) = next_word(&mut word, rest)? else {
            return Ok(settings);
        };
        rest = behind;
        take_word(alloc, directory, &mut settings, word.as_str())?;
    }
}

// What the texts of an array say, None where an element is no text.
fn read_arguments(
    alloc: Global,
    directory: &mut Directory,
    arguments: &[Value],
) -> Result<Option<Settings>, AllocError>
    ensures includes { IfOk result (λ o. option_map (λ s. s.includes.items) o ≡ option_map (folders_said directory.old) (texts_in (items_of (map view arguments.now)))) }
    ensures defines { IfOk result (λ o. option_map (λ s. s.defines.items) o ≡ option_map defines_said (texts_in (items_of (map view arguments.now)))) }
    ensures same { directory.new ≡ directory.old }
{
    let mut settings = Settings::none(alloc);
    let mut rest = arguments;
    while let Some((argument, behind)) = rest.split_first() {
        rest = behind;
        let Some(word) = argument.as_str() else {
            return Ok(None);
        };
        take_word(alloc, directory, &mut settings, word)?;
    }
    Ok(Some(settings))
}

// What an entry's words say, None where it has none.
#[tactic(auto, unfolding(crate::specs::Database::words_in))]
fn settings_in(
    alloc: Global,
    directory: &mut Directory,
    entry: &Value,
) -> Result<Option<Settings>, AllocError>
    ensures includes { IfOk result (λ o. option_map (λ s. s.includes.items) o ≡ option_map (folders_said directory.old) (words_in (view entry.now))) }
    ensures defines { IfOk result (λ o. option_map (λ s. s.defines.items) o ≡ option_map defines_said (words_in (view entry.now))) }
    ensures same { directory.new ≡ directory.old }
{
    match entry.get("arguments") {
        Some(arguments) => {
            let Some(arguments) = arguments.as_array() else {
                return Ok(None);
            };
            let settings = read_arguments(alloc, directory, arguments.as_slice())?;
            Ok(settings)
        }
        None => {
            let Some(command) = text_at(entry, "command") else {
                return Ok(None);
            };
            let settings = read_command(alloc, directory, command)?;
            Ok(Some(settings))
        }
    }
}

// Goes to the directory of an entry, or answers false where it has none.
#[tactic(auto, using(crate::proofs::SettingLemmas::entered, crate::proofs::SettingLemmas::not_entered))]
fn enter(root: &mut Directory, directory: &mut Directory, entry: &Value) -> Result<bool, AllocError>
    ensures directory { IfOk result (λ there. (if there then Some directory.new else None) ≡ path_at root.old (codes "directory") (view entry.now)) }
    ensures same { root.new ≡ root.old }
{
    let Some(text) = text_at(entry, "directory") else {
        return Ok(false);
    };
    match root.within(text)? {
        Some(path) => {
            directory.enter(path);
            Ok(true)
        }
        None => Ok(false),
    }
}

// The unit of an entry, None where the entry is faulty.
#[tactic(auto, using(crate::proofs::SettingLemmas::unit_made, crate::proofs::SettingLemmas::unit_lacks), unfolding(crate::specs::Database::unit_of))]
fn unit_of(
    alloc: Global,
    root: &mut Directory,
    directory: &mut Directory,
    entry: &Value,
) -> Result<Option<UnitConf>, AllocError>
    ensures unit { IfOk result (λ unit. unit ≡ unit_of root.old (view entry.now)) }
    ensures same { root.new ≡ root.old }
{
    if !enter(root, directory, entry)? {
        return Ok(None);
    }
    let Some(file) = path_at(alloc, directory.path(), "file", entry)? else {
        return Ok(None);
    };
    let Some(settings) = settings_in(alloc, directory, entry)? else {
        return Ok(None);
    };
    Ok(Some(UnitConf {
        file,
        includes: IncludePaths::from_vec(settings.includes),
        defines: Defines::from_vec(settings.defines),
    }))
}

// The units of the entries, in order.
#[tactic(auto, using(crate::proofs::EntryLemmas::entry_turns, crate::proofs::EntryLemmas::entry_fails, crate::proofs::EntryLemmas::entries_begin, crate::proofs::EntryLemmas::entries_end))]
fn units_from(alloc: Global, root: &Path, entries: &[Value]) -> Result<UnitConfs, ConfError>
    requires { length entries.now < 4294967296 }
    ensures { result ≢ Err NoMemory → result ≡ units_from root.now 0 (items_of (map view entries.now)) }
{
    let mut from = Directory::new(alloc, root.share()?);
    let mut directory = Directory::new(alloc, root.share()?);
    let mut units = Vec::new(alloc);
    let mut number: u32 = 0;
    let mut rest = entries;
    while let Some((entry, behind)) = rest.split_first() {
        rest = behind;
        let Some(unit) = unit_of(alloc, &mut from, &mut directory, entry)? else {
            return Err(ConfError::Entry(number));
        };
        units.push(unit).map_err(AllocError::from)?;
        number += 1;
    }
    Ok(UnitConfs::from_vec(units))
}

// The value of a text.
#[tactic(auto, using(crate::proofs::Weights::weight_read))]
fn value_of(alloc: Global, text: &str) -> Result<Value, ConfError>
    ensures read { IfOk result (λ v. read text.now ≡ Some (view v)) }
    ensures weight { IfOk result (λ v. weight (view v) ≤ length text.now) }
    ensures kind { IfErr result (λ e. e ≢ NoMemory → e ≡ NotJson) }
    ensures none { IfErr result (λ e. e ≢ NoMemory → read text.now ≡ None) }
{
    match Value::from_str(alloc, text) {
        Ok(value) => Ok(value),
        Err(error) => {
            if error.is_memory() {
                return Err(ConfError::NoMemory);
            }
            Err(ConfError::NotJson)
        }
    }
}

// The units of a value.
#[tactic(auto, using(crate::proofs::EntryLemmas::units_in_array, crate::proofs::EntryLemmas::units_in_other, crate::proofs::Weights::array_weighs, crate::proofs::Weights::entries_weigh))]
fn units_in(alloc: Global, root: &Path, value: &Value) -> Result<UnitConfs, ConfError>
    requires { weight (view value.now) < 4294967296 }
    ensures { result ≢ Err NoMemory → result ≡ units_in root.now (view value.now) }
{
    let Some(entries) = value.as_array() else {
        return Err(ConfError::NotArray);
    };
    units_from(alloc, root, entries.as_slice())
}

/// The entries of a database of compilations, `compile_commands.json`, in order, which may have several of one file. The text has at
/// most 4,194,304 bytes. `directory` is taken from the root, `file` and the folders from `directory`; a folder that goes above `/`
/// is skipped, and so is a definition whose name is no identifier (ISO C11 6.4.2.1). The names and texts of an entry's definitions
/// have together at most 2^25 bytes.
#[tactic(auto, unfolding(crate::specs::Database::units_of))]
pub fn commands(alloc: Global, text: &str, root: &Path) -> Result<UnitConfs, ConfError>
    requires { length text.now ≤ 4194304 }
    ensures units { result ≢ Err NoMemory → result ≡ units_of root.now text.now }
    ensures usable { IfOk result (λ units. All (λ u. AreUsable 33554432 u.defines) units) }
{
    let value = value_of(alloc, text)?;
    units_in(alloc, root, &value)
}
