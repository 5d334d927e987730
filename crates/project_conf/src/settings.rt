// What the arguments of a compiler say of folders and definitions.
ghost use Rattle.std.specs.Prelude.{◌≡◌, ◌++◌, ◌∷◌, [], ℕ, List, Some, Option, length, drop, nat_eq, option_map, if◌then◌else◌, None, IfOk, OnOk};
ghost use Rattle.std.specs.List.{starts_with};
ghost use Rattle.project_conf.specs.Settings.{setting, setting_in, settings_from, name_in, text_in, among, folders_by, folders_of, defines_by, defines_of};
ghost use Rattle.project_conf.specs.declared.settings.Gives.TheVariants.{Set, Unset};
ghost use Rattle.uri_paths.specs.Paths.{within};

use crate::directory::Directory;
use crate::options::Define;
use c_tokens::is_identifier;
use shared_text::Name;
use std::alloc::{AllocError, Global};
use uri_paths::Path;

/// What an option gives.
#[derive(Clone, Copy, Debug, PartialEq, Eq)]
pub(crate) enum Gives {
    /// A folder to search.
    Folder,
    /// A definition.
    Set,
    /// That a name has none.
    Unset,
}

/// What was read of some words.
#[derive(Drop)]
pub(crate) struct Settings {
    /// What the option gives that waits for its text.
    pub waiting: Option<Gives>,
    pub includes: Vec<Path>,
    pub defines: Vec<Define>,
}

impl Settings {
    pub(crate) fn none(alloc: Global) -> Settings
        ensures waiting { result.waiting ≡ None }
        ensures includes { result.includes.items ≡ [] }
        ensures defines { result.defines.items ≡ [] }
    {
        Settings {
            waiting: None,
            includes: Vec::new(alloc),
            defines: Vec::new(alloc),
        }
    }
}

// What is joined to an option in a word that begins with it.
#[tactic(auto, using(crate::proofs::Fronts::stripped))]
fn joined<'a>(option: &'static str, word: &'a str) -> Option<&'a str>
    ensures { option_map (λ t. t.now) result ≡ (if starts_with nat_eq word.now option.now then Some (drop (length option.now) word.now) else None) }
{
    word.strip_prefix(option)
}

#[tactic(auto, unfolding(crate::specs::Settings::setting_in))]
fn setting_in(word: &str) -> Option<(Gives, &str)>
    ensures { option_map (λ o. setting o.0 o.1.now) result ≡ setting_in word.now }
{
    if let Some(text) = joined("-I", word) {
        return Some((Gives::Folder, text));
    }
    if let Some(text) = joined("-iquote", word) {
        return Some((Gives::Folder, text));
    }
    if let Some(text) = joined("-isystem", word) {
        return Some((Gives::Folder, text));
    }
    if let Some(text) = joined("-D", word) {
        return Some((Gives::Set, text));
    }
    if let Some(text) = joined("-U", word) {
        return Some((Gives::Unset, text));
    }
    None
}

// The name and the text of a definition, which are parted by the first `=`; without one the text is `1`.
pub(crate) fn split_define(text: &str) -> (&str, &str)
    ensures name { result.0.now ≡ name_in text.now }
    ensures text { result.1.now ≡ text_in text.now }
{
    match text.split_once('=') {
        Some((name, behind)) => (name, behind),
        None => (text, "1"),
    }
}

// The folder that a text means in a directory; one that goes above `/` is skipped.
fn push_folder(
    directory: &mut Directory,
    includes: &mut Vec<Path>,
    text: &str,
) -> Result<(), AllocError>
    ensures folder { OnOk result (includes.new.items ≡ includes.old.items ++ among (within directory.old text.now)) }
    ensures same { directory.new ≡ directory.old }
{
    match directory.within(text)? {
        Some(path) => {
            includes.push(path)?;
            Ok(())
        }
        None => Ok(()),
    }
}

// The definition that a text gives; one whose name is no identifier is skipped.
#[tactic(auto, using(crate::proofs::SettingLemmas::set_given, crate::proofs::SettingLemmas::none_given))]
fn push_set(
    directory: &mut Directory,
    defines: &mut Vec<Define>,
    text: &str,
) -> Result<(), AllocError>
    ensures define { OnOk result (defines.new.items ≡ defines.old.items ++ defines_by Set text.now) }
    ensures same { directory.new ≡ directory.old }
{
    match directory.define(text)? {
        Some(define) => {
            defines.push(define)?;
            Ok(())
        }
        None => Ok(()),
    }
}

fn push_unset(alloc: Global, defines: &mut Vec<Define>, text: &str) -> Result<(), AllocError>
    ensures { OnOk result (defines.new.items ≡ defines.old.items ++ defines_by Unset text.now) }
{
    if !is_identifier(text) {
        return Ok(());
    }
    let name = Name::from_str(alloc, text)?;
    defines.push(Define::Unset(name))?;
    Ok(())
}

// An option with its text.
fn take_setting(
    alloc: Global,
    directory: &mut Directory,
    settings: &mut Settings,
    gives: Gives,
    text: &str,
) -> Result<(), AllocError>
    ensures waiting { settings.new.waiting ≡ settings.old.waiting }
    ensures includes { OnOk result (settings.new.includes.items ≡ settings.old.includes.items ++ folders_by directory.old gives text.now) }
    ensures defines { OnOk result (settings.new.defines.items ≡ settings.old.defines.items ++ defines_by gives text.now) }
    ensures same { directory.new ≡ directory.old }
{
    match gives {
        Gives::Folder => push_folder(directory, &mut settings.includes, text),
        Gives::Set => push_set(directory, &mut settings.defines, text),
        Gives::Unset => push_unset(alloc, &mut settings.defines, text),
    }
}

/// One word more, of which the folders are taken from a directory.
#[tactic(auto, unfolding(crate::specs::Settings::settings_from))]
pub(crate) fn take_word(
    alloc: Global,
    directory: &mut Directory,
    settings: &mut Settings,
    word: &str,
) -> Result<(), AllocError>
    ensures includes { OnOk result ((rest : List (List ℕ)) → settings.new.includes.items ++ folders_of directory.old (settings_from settings.new.waiting rest) ≡ settings.old.includes.items ++ folders_of directory.old (settings_from settings.old.waiting (word.now ∷ rest))) }
    ensures defines { OnOk result ((rest : List (List ℕ)) → settings.new.defines.items ++ defines_of (settings_from settings.new.waiting rest) ≡ settings.old.defines.items ++ defines_of (settings_from settings.old.waiting (word.now ∷ rest))) }
    ensures same { directory.new ≡ directory.old }
{
    match settings.waiting {
        Some(gives) => {
            settings.waiting = None;
            take_setting(alloc, directory, settings, gives, word)
        }
        None => match setting_in(word) {
            Some((gives, text)) => {
                if text.is_empty() {
                    settings.waiting = Some(gives);
                    return Ok(());
                }
                take_setting(alloc, directory, settings, gives, text)
            }
            None => Ok(()),
        },
    }
}
