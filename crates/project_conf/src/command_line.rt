// The words of the command line.
ghost use Rattle.std.specs.Prelude.{◌≡◌, ◌≢◌, ◌≤◌, None, Some, true, false, codes, option_map, IfErr, IfOk, IfSome};
ghost use Rattle.clap.specs.Words.{app_of, found_of, rows_of, rule_of};
ghost use Rattle.project_conf.specs.CommandLine.{are_taken, command_line, generate_rule, given, option_rule, rows_in};
ghost use Rattle.project_conf.specs.Defines.{AreUsable};
ghost use Rattle.project_conf.specs.Words.{texts, are_grammatical, by_rows, defines_given, folders_given, number_in, options_in, options_of, run_given};
ghost use Rattle.project_conf.specs.declared.command_line.WordError.TheVariants as WordError;

use crate::lists::{defines_listed, folders_listed};
use crate::options::{Defines, Folders, Options};
use clap::error::ErrorKind;
use clap::{Arg, ArgMatches, Command};
use std::alloc::{AllocError, Global};
use thiserror::Error;

/// Why words give no options.
#[derive(Clone, Copy, Debug, PartialEq, Eq, Error)]
pub enum WordError {
    #[error("the words aren't in the grammar")]
    Usage,
    #[error("no memory")]
    NoMemory,
}

impl From<AllocError> for WordError {
    ghost use Rattle.std.specs.Prelude.{◌≡◌};
    ghost use Rattle.project_conf.specs.declared.command_line.WordError.TheVariants.{NoMemory};

    ghost from_gives = { λ _ e. e ≡ NoMemory };

    fn from(_: AllocError) -> WordError {
        WordError::NoMemory
    }
}

fn option_of<'a>(alloc: Global, name: &'a str) -> Arg<'a>
    ensures rule { rule_of result ≡ option_rule name.now }
    ensures own { result.global ≡ false }
{
    Arg::new(alloc, name).long(name)
}

fn generate_of<'a>(alloc: Global) -> Arg<'a>
    ensures rule { rule_of result ≡ generate_rule }
    ensures own { result.global ≡ false }
{
    Arg::new(alloc, "generate")
        .long("generate")
        .value_parser(clap::value_parser!(u32))
}

#[tactic(auto, unfolding(crate::specs::CommandLine::command_line))]
fn command_of<'a>(alloc: Global) -> Result<Command<'a>, AllocError>
    ensures { IfOk result (λ c. app_of c ≡ command_line) }
{
    let command = Command::new(alloc, "c11ls")
        .arg(option_of(alloc, "include"))?
        .arg(option_of(alloc, "define"))?
        .arg(generate_of(alloc))?;
    Ok(
        command
            .no_binary_name(true)
            .disable_help_flag(true)
            .disable_version_flag(true),
    )
}

// The values of words that are taken.
#[tactic(auto, unfolding(crate::specs::CommandLine::are_taken, crate::specs::CommandLine::rows_in))]
fn read<'a>(alloc: Global, words: &'a [String]) -> Result<ArgMatches<'a>, WordError>
    ensures taken { IfOk result (λ m. are_taken (texts words.entry.now) ≡ true) }
    ensures rows { IfOk result (λ m. rows_of (found_of m) ≡ rows_in (texts words.entry.now)) }
    ensures usage { IfErr result (λ e. e ≢ WordError.NoMemory → are_taken (texts words.entry.now) ≡ false) }
{
    let command = command_of(alloc)?;
    match command.try_get_matches_from(words) {
        Ok(matches) => Ok(matches),
        Err(error) => match error.kind() {
            ErrorKind::OutOfMemory => Err(WordError::NoMemory),
            _ => Err(WordError::Usage),
        },
    }
}

fn text_of<'a>(matches: &ArgMatches<'a>, name: &'static str) -> Option<&'a str>
    ensures { option_map (λ t. t.now) result ≡ given name.now (rows_of (found_of matches.now)) }
{
    matches.get_str(name)
}

fn folders_given(alloc: Global, list: Option<&str>) -> Result<Folders, WordError>
    ensures given { IfOk result (λ folders. folders_given (option_map (λ l. l.now) list.entry) ≡ Some folders) }
    ensures usage { IfErr result (λ e. e ≢ WordError.NoMemory → folders_given (option_map (λ l. l.now) list.entry) ≡ None) }
{
    let Some(list) = list else {
        return Ok(Folders::from_vec(Vec::new(alloc)));
    };
    match folders_listed(alloc, list) {
        Ok(Some(folders)) => Ok(folders),
        Ok(None) => Err(WordError::Usage),
        Err(_) => Err(WordError::NoMemory),
    }
}

fn defines_given(alloc: Global, list: Option<&str>) -> Result<Defines, WordError>
    ensures given { IfOk result (λ defines. defines_given (option_map (λ l. l.now) list.entry) ≡ Some defines) }
    ensures usage { IfErr result (λ e. e ≢ WordError.NoMemory → defines_given (option_map (λ l. l.now) list.entry) ≡ None) }
{
    let Some(list) = list else {
        return Ok(Defines::from_vec(Vec::new(alloc)));
    };
    match defines_listed(alloc, list) {
        Ok(Some(defines)) => Ok(defines),
        Ok(None) => Err(WordError::Usage),
        Err(_) => Err(WordError::NoMemory),
    }
}

#[tactic(auto, using(crate::proofs::NumberLemmas::number_read))]
fn number_in(text: &str) -> Option<u32>
    ensures { result ≡ number_in text.now }
{
    match text.parse::<u32>() {
        Ok(number) => Some(number),
        Err(_) => None,
    }
}

fn run_given(text: Option<&str>) -> Result<Option<u32>, WordError>
    ensures given { IfOk result (λ run. run_given (option_map (λ t. t.now) text.entry) ≡ Some run) }
    ensures usage { IfErr result (λ e. run_given (option_map (λ t. t.now) text.entry) ≡ None) }
    ensures number { IfOk result (λ run. IfSome run (λ n. 1 ≤ n × n ≤ 512)) }
{
    let Some(text) = text else {
        return Ok(None);
    };
    let Some(number) = number_in(text) else {
        return Err(WordError::Usage);
    };
    if 1 <= number && number <= 512 {
        return Ok(Some(number));
    }
    Err(WordError::Usage)
}

// The options that values say.
fn options_by(alloc: Global, matches: &ArgMatches<'_>) -> Result<Options, WordError>
    ensures given { IfOk result (λ options. by_rows (rows_of (found_of matches.now)) ≡ Some options) }
    ensures usage { IfErr result (λ e. e ≢ WordError.NoMemory → by_rows (rows_of (found_of matches.now)) ≡ None) }
    ensures number { IfOk result (λ options. IfSome options.generate (λ n. 1 ≤ n × n ≤ 512)) }
{
    let includes = match folders_given(alloc, text_of(matches, "include")) {
        Ok(includes) => includes,
        Err(error) => return Err(error),
    };
    let defines = match defines_given(alloc, text_of(matches, "define")) {
        Ok(defines) => defines,
        Err(error) => return Err(error),
    };
    match run_given(text_of(matches, "generate")) {
        Ok(generate) => Ok(Options {
            includes,
            defines,
            generate,
        }),
        Err(error) => Err(error),
    }
}

/// What the words after the program's name say: three long options, each at most once with one value. `--include` has folders
/// parted by `:`, `--define` parts `NAME` or `NAME=TEXT` parted by `;`, where NAME is an identifier (ISO C11 6.4.2.1), and
/// `--generate` a number from 1 to 512. A list has at most 65,536 bytes and no empty part. Usage: exactly where the words aren't in
/// this grammar.
#[tactic(auto, using(crate::proofs::ListLemmas::options_usable), unfolding(crate::specs::Words::options_in))]
pub fn words(alloc: Global, words: &[String]) -> Result<Options, WordError>
    ensures grammatical { IfOk result (λ options. are_grammatical (texts words.now) ≡ true) }
    ensures options { IfOk result (λ options. options ≡ options_of (texts words.now)) }
    ensures usable { IfOk result (λ options. AreUsable 131072 options.defines) }
    ensures number { IfOk result (λ options. IfSome options.generate (λ n. 1 ≤ n × n ≤ 512)) }
    ensures usage { IfErr result (λ e. e ≢ WordError.NoMemory → are_grammatical (texts words.now) ≡ false) }
{
    let matches = match read(alloc, words) {
        Ok(matches) => matches,
        Err(error) => return Err(error),
    };
    options_by(alloc, &matches)
}
