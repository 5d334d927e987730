// What the words of the command line and the database of compilations say: folders to search, and definitions.
#![tactic(auto)]

mod command_line;
mod command_words;
mod conf;
mod database;
mod directory;
mod entries;
mod laws;
mod lists;
mod options;
mod parting;
mod settings;

pub use command_line::{WordError, words};
pub use conf::{Conf, IncludePaths, UnitConf, UnitConfs};
pub use database::{ConfError, commands};
pub use entries::{Entries, is_unit, with_entry};
pub use laws::commands_are_read;
pub use options::{Define, Defines, Folder, Folders, Options};
