// What units mean, and when they mean the same, as laws of the definitions.
ghost use Rattle.std.specs.Prelude.{◌≡◌, not, ◌||◌, ℕ, true, false, is_some, map, List};
ghost use Rattle.std.specs.List.{list_any};
ghost use Rattle.doc_texts.specs.Edited.{edited};
ghost use Rattle.doc_texts.specs.Prior.{Prior, text_before};
ghost use Rattle.doc_texts.specs.Texts.{Texts, text_at};
ghost use Rattle.doc_texts.specs.declared.ranges.TextEdits.{TextEdits};
ghost use Rattle.include_units.specs.Files.{Question};
ghost use Rattle.project_conf.specs.declared.conf.Conf.{Conf};
ghost use Rattle.project_conf.specs.declared.conf.UnitConf.{UnitConf};
ghost use Rattle.project_conf.specs.Entries.{unit_conf};
ghost use Rattle.plain_mean.specs.Given.{text_in};
ghost use Rattle.plain_mean.specs.Meanings.{meaning};
ghost use Rattle.plain_mean.specs.Ranges.{all_renamed, plain};
ghost use Rattle.plain_mean.specs.Renewed.{IsGrounds, are_gone, has_other, is_renewed, questions};
ghost use Rattle.plain_mean.specs.Same.{same_conf};
ghost use Rattle.plain_mean.specs.Shown.{is_unit_of, units};
ghost use Rattle.plain_mean.specs.declared.types.Grounds.{Grounds as Resting};

use doc_texts::paths_are_sets;
use include_units::files_are_lawful;

/// A law of the definitions, which has nothing to run: which units there are, what each means and asks follows from the text that each path has, whether
/// it stands on disk or in an open document, from which paths are units, and from how the units are read.
pub fn meanings_follow()
    ensures units { (t t' : Texts) (conf : Conf) → ((path : List ℕ) → text_at t' path ≡ text_at t path) → ((path : List ℕ) → is_unit_of t' conf path ≡ is_unit_of t conf path) → units t' conf ≡ units t conf }
    ensures meaning { (t t' : Texts) (conf : Conf) → ((path : List ℕ) → text_at t' path ≡ text_at t path) → (unit : List ℕ) → meaning t' conf unit ≡ meaning t conf unit }
    ensures questions { (t t' : Texts) (conf : Conf) → ((path : List ℕ) → text_at t' path ≡ text_at t path) → (unit : List ℕ) → questions t' conf unit ≡ questions t conf unit }
    ensures text { (t t' : Texts) → ((path : List ℕ) → text_at t' path ≡ text_at t path) → (path : List ℕ) → text_in t' path ≡ text_in t path }
{
    paths_are_sets();
}

/// A law of the definitions, which has nothing to run: which units there are follows from which paths have a text, and which of these are units.
pub fn units_follow()
    ensures { (t t' : Texts) (conf : Conf) → ((path : List ℕ) → is_some (text_at t' path) ≡ is_some (text_at t path)) → ((path : List ℕ) → is_unit_of t' conf path ≡ is_unit_of t conf path) → units t' conf ≡ units t conf }
{
    paths_are_sets();
}

/// A law of the definitions, which has nothing to run: a unit that was one before, has the configuration that it had, and gets the answers that it got,
/// means what it meant, by the same grounds.
pub fn units_stay()
    ensures meaning { (t t' : Texts) (c c' : Conf) (unit : List ℕ) → is_renewed t c t' c' unit ≡ false → meaning t' c' unit ≡ meaning t c unit }
    ensures grounds { (t t' : Texts) (c c' : Conf) (unit : List ℕ) → is_renewed t c t' c' unit ≡ false → (grounds : Resting) → IsGrounds t c unit grounds → IsGrounds t' c' unit grounds }
{
    files_are_lawful();
}

/// A law of the definitions, which has nothing to run: where each path has the text that it had, no question has another answer.
pub fn answers_stay()
    ensures { (t t' : Texts) → ((path : List ℕ) → text_at t' path ≡ text_at t path) → (q : Question) → has_other t t' q ≡ false }
{}

/// A law of the definitions, which has nothing to run: two configurations are the same by the test exactly where they are equal.
pub fn configurations_are_equal()
    ensures same { (a b : UnitConf) → same_conf a b ≡ true → a ≡ b }
    ensures itself { (a : UnitConf) → same_conf a a ≡ true }
{}

/// A law of the definitions, which has nothing to run: when the grounds of a unit hold no more, by the texts before and now.
pub fn grounds_hold()
    ensures { (prior : Prior) (t now : Texts) (c c' : Conf) (unit : List ℕ) (grounds : Resting) → ((path : List ℕ) → text_before prior now path ≡ text_at t path) → IsGrounds t c unit grounds → are_gone prior now c' unit grounds ≡ (not (same_conf (unit_conf c unit) (unit_conf c' unit)) || list_any (has_other t now) (questions t c unit)) }
{}

/// A law of the definitions, which has nothing to run: edits of texts make what their ranges say.
pub fn edited_as_meant()
    ensures { (texts : Texts) (edits : List TextEdits) (name : List ℕ) → edited texts edits name ≡ all_renamed texts texts (map plain edits) name }
{}
