// Laws of classes, and of renames that aren't refused.
ghost use Rattle.std.specs.Prelude.{◌≡◌, List, Ok};
ghost use Rattle.rename_core.specs.Apart.{OthersAddNothing};
ghost use Rattle.rename_core.specs.Classes.{IsClass};
ghost use Rattle.rename_core.specs.Clashes.{confirmed};
ghost use Rattle.rename_core.specs.Kept.{IsKept};
ghost use Rattle.rename_core.specs.Chained.{class_toks};
ghost use Rattle.rename_core.specs.Views.{View};
ghost use Rattle.rename_core.specs.declared.class.Plan.{Plan as Planned};
ghost use Rattle.rename_core.specs.declared.confirming.Edits.{Edits as Edited};
ghost use Rattle.scope_tables.specs.declared.entities.Occ.{Occ as Occurrence};
ghost use Rattle.tok_data.specs.declared.sources.TokId.{TokId as Token};

/// A law, with nothing to run: units that have no occurrence of a token, or of one that it reaches in the other units, and none with an
/// external name of those, add nothing to its class.
pub fn others_add_nothing()
    ensures { OthersAddNothing }
{}

/// A law, with nothing to run: the tokens to which a chain of links leads from a token, found by way of all tokens that there are, are its class, and no
/// other list is.
pub fn classes_are_lists()
    ensures class { (us : List (List Occurrence)) (t : Token) → IsClass us t (class_toks us t) }
    ensures only { (us : List (List Occurrence)) (t : Token) (class : List Token) → IsClass us t class → class ≡ class_toks us t }
{}

/// A law, with nothing to run: a plan that is confirmed leaves the kinds of tokens and what they denote, as `IsKept` says, and edits the
/// tokens of its class.
pub fn confirmed_renames_keep()
    ensures kept { (p : Planned) (before after : List View) (edits : Edited) → confirmed p before after ≡ Ok edits → IsKept p before after }
    ensures edits { (p : Planned) (before after : List View) (edits : Edited) → confirmed p before after ≡ Ok edits → edits.toks ≡ p.class.toks }
    ensures name { (p : Planned) (before after : List View) (edits : Edited) → confirmed p before after ≡ Ok edits → edits.new_name ≡ p.new_name }
{}
