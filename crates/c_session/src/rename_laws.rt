// Laws of renames over the texts of a session.
ghost use Rattle.std.specs.Prelude.{◌≡◌, ℕ, ◌≤◌, false, true, bytes_eq, List, Option, Ok, is_ok, length, map};
ghost use Rattle.std.specs.List.{AllByRecursion, list_any};
ghost use Rattle.doc_texts.specs.Limits.{longest_name};
ghost use Rattle.doc_texts.specs.Short.{AllShort};
ghost use Rattle.doc_texts.specs.Texts.{Texts, text_at};
ghost use Rattle.plain_mean.specs.Ranges.{paths_in, ranges_of, texts_after};
ghost use Rattle.project_conf.specs.declared.conf.Conf.{Conf};
ghost use Rattle.c_session.specs.Classed.{class_in};
ghost use Rattle.c_session.specs.Handled.{Handled};
ghost use Rattle.c_session.specs.Keeping.{KeepsBindings};
ghost use Rattle.c_session.specs.Outcomes.{plan_of, rename};
ghost use Rattle.c_session.specs.ReadBack.{AreUtf8, StandIn, editor_after};
ghost use Rattle.c_session.specs.State.{State};
ghost use Rattle.c_session.specs.Units.{known};
ghost use Rattle.io_edges.specs.Store.{Entry};
ghost use Rattle.rename_core.specs.Refusals.{can_be_renamed, is_new_name};
ghost use Rattle.rename_core.specs.declared.class.Plan.{Plan};
ghost use Rattle.rename_core.specs.declared.confirming.Edits.{Edits};
ghost use Rattle.text_lines.specs.declared.encoding.Encoding.{Encoding};
ghost use Rattle.tok_data.specs.declared.sources.TokId.{TokId};
ghost use Rattle.unit_index.specs.Occurrences.{occs_of};

use doc_texts::{paths_are_sets, texts_stay_short};
use rename_core::{classes_are_lists, confirmed_renames_keep};

/// A law of the definitions, which has nothing to run: a plan's name has at most 1,023 bytes.
pub fn names_are_short()
    ensures { (texts : Texts) (conf : Conf) (t : TokId) (name : List ℕ) (p : Plan) → plan_of texts conf t name ≡ Ok p → length p.new_name ≤ longest_name }
{}

/// A law of the definitions, which has nothing to run: a rename that isn't refused edits the class of the token, and keeps every binding.
pub fn renames_keep_bindings()
    ensures { (texts : Texts) (conf : Conf) (t : TokId) (name : List ℕ) (edits : Edits) → rename texts conf t name ≡ Ok edits → KeepsBindings texts conf t edits }
{
    paths_are_sets();
    classes_are_lists();
    confirmed_renames_keep();
}

/// A law of the definitions, which has nothing to run: whether a token may be renamed is told beforehand just as a plan to any name
/// is refused or not, where the name may be one at all: an identifier, no keyword, of at most 1,023 bytes.
#[tactic(auto, using(crate::proofs::Preparing::planned_as_prepared))]
pub fn plans_are_as_prepared()
    ensures { (texts : Texts) (conf : Conf) (t : TokId) (name : List ℕ) → is_new_name name ≡ true → is_ok (plan_of texts conf t name) ≡ can_be_renamed (class_in (map occs_of (known texts conf)) t) }
{}

/// A law of the definitions, which has nothing to run: the edits of an accepted rename are to the name that was asked for, and
/// with edits made at tokens, a text in which none of these stands is what it was.
pub fn edits_are_as_asked()
    ensures name { (texts : Texts) (conf : Conf) (t : TokId) (name : List ℕ) (edits : Edits) → rename texts conf t name ≡ Ok edits → edits.new_name ≡ name }
    ensures others { (texts : Texts) (toks : List TokId) (name path : List ℕ) → list_any (bytes_eq path) (paths_in toks) ≡ false → text_at (texts_after texts toks name) path ≡ text_at texts path }
{
    confirmed_renames_keep();
}

/// A law of the definitions, which has nothing to run: an editor that reads each range of a rename's answer back, line and
/// character in the encoding of positions that was agreed on and in the text that it has, and puts the new name there, has just
/// the texts with the name in place of the tokens, of which [`renames_keep_bindings`] speaks. Every text is UTF-8, which those
/// of a session are by their type.
#[tactic(auto, using(crate::proofs::ReadBack::edits_read_back))]
pub fn edits_are_read_back()
    ensures { (texts : Texts) (encoding : Encoding) (e : Edits) → AreUtf8 texts → editor_after texts encoding e ≡ texts_after texts e.toks e.new_name }
{}

/// A law of the definitions, which has nothing to run: the ranges of an accepted rename stand in each text in order and apart,
/// none is empty, and none cuts a code point, as the edits of one text may not overlap (LSP 3.17, TextEdit[]).
pub fn edits_stand_apart()
    ensures { (texts : Texts) (conf : Conf) (t : TokId) (name : List ℕ) (edits : Edits) → AreUtf8 texts → rename texts conf t name ≡ Ok edits → AllByRecursion (StandIn texts) (ranges_of texts edits.toks) }
{
    renames_keep_bindings();
}

/// A law of the definitions, which has nothing to run: where no text is longer than a session takes in, none is behind a content.
pub(crate) fn contents_keep_limits()
    ensures { (s s' : State) (content bytes : List ℕ) (end : Option ℕ) (old new : Option (List Entry)) → Handled s content s' bytes end old new → AllShort s.texts → AllShort s'.texts }
{
    texts_stay_short();
}
