// Laws of units over the definitions alone, with nothing to run.
ghost use Rattle.asking.specs.Asking.{IsLawful};
ghost use Rattle.asking.specs.Laws.{LookedRight, LookedEnds, LookedInOrder};
ghost use Rattle.include_units.specs.Files.{files};
ghost use Rattle.include_units.specs.declared.types.UnitTokens.{UnitTokens};

use asking::{Questions, Results, looked_ends, looked_in_order, looked_right};

/// The questions that a unit asks of files.
pub struct FileQuestions;

impl Questions for FileQuestions {
    ghost kind = { files };
}

/// The tokens of a unit, as what comes of its questions.
pub struct UnitResults;

impl Results for UnitResults {
    ghost results = { UnitTokens };
}

/// Two questions are the same exactly where they are of one kind and one path.
pub fn files_are_lawful()
    ensures { IsLawful files }
{}

/// Over answers that agree with the files, a unit that ends has its result over the files. Else it needs questions without
/// an answer, at least one, which it asks over the files too.
pub fn units_are_right()
    ensures { LookedRight files UnitTokens }
{
    looked_right::<FileQuestions, UnitResults>()
}

/// Where all that a unit asks over the files is answered, it ends.
pub fn units_end()
    ensures { LookedEnds files UnitTokens }
{
    looked_ends::<FileQuestions, UnitResults>()
}

/// A unit needs what it asks in the order of asking.
pub fn units_ask_in_order()
    ensures { LookedInOrder files UnitTokens }
{
    looked_in_order::<FileQuestions, UnitResults>()
}
