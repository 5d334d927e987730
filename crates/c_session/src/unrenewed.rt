// Texts that stayed, as a law of the definitions.
ghost use Rattle.std.specs.Prelude.{◌≡◌, []};
ghost use Rattle.doc_texts.specs.Texts.{Texts};
ghost use Rattle.plain_mean.specs.Renewed.{renewed};
ghost use Rattle.project_conf.specs.declared.conf.Conf.{Conf};

use plain_mean::{answers_stay, configurations_are_equal};

/// A law of the definitions, which has nothing to run: where texts stay, and how they are read, no unit has to be worked out again.
pub(crate) fn nothing_is_renewed()
    ensures { (t : Texts) (conf : Conf) → renewed t conf t conf ≡ [] }
{
    answers_stay();
    configurations_are_equal();
}
