// A law of the words of a command. A call does nothing: its contract is what it is for.
ghost use Rattle.std.specs.Prelude.{◌≡◌, ℕ, List, map, encode_utf8_all};
ghost use Rattle.std.specs.Str.{chars};
ghost use Rattle.project_conf.specs.Parting.{words_of};
ghost use Rattle.project_conf.specs.Writing.{AreWords};

/// The words that are read from a command are those that its pieces, words and spaces say, and every command is written of these.
pub fn commands_are_read(_command: &str)
    ensures read { (words : List (List ℕ)) → AreWords (chars _command.now) words → words_of _command.now ≡ map encode_utf8_all words }
    ensures written { (words : List (List ℕ)) × AreWords (chars _command.now) words }
{}
