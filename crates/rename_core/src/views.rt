// Units and their texts before and after an edit, lent.
ghost use Rattle.std.specs.Prelude.{◌≡◌};

use scope_tables::Occ;
use shared_list::Listing;
use std::marker::Model;
use tok_data::{FileId, PpKind};
use uri_paths::Path;

/// The kinds of a text's tokens (ISO C11 6.4), in order.
#[derive(Drop)]
pub struct FileKinds {
    pub file: FileId,
    pub kinds: Listing<PpKind>,
}

/// A unit, its occurrences and the kinds of the tokens of some texts, lent. The kinds of a text are read from the first view that
/// tells them, so one list of them may be lent to all views or to one alone.
#[derive(Drop)]
pub struct UnitView<'a> {
    pub unit: &'a Path,
    pub kinds: &'a [FileKinds],
    pub occs: &'a [Occ],
}

impl<'a> Model for UnitView<'a> {
    ghost use Rattle.rename_core.specs.Views.{View};

    ghost Value = { View };

    ghost view = { λ v. record { path = v.unit.now; kinds = v.kinds.now; occs = v.occs.now } };
}

impl<'a> UnitView<'a> {
    pub(crate) fn unit(&self) -> &'a Path
        ensures { result.now ≡ self.now.path }
    {
        self.unit
    }

    pub(crate) fn kinds(&self) -> &'a [FileKinds]
        ensures { result.now ≡ self.now.kinds }
    {
        self.kinds
    }

    pub(crate) fn occs(&self) -> &'a [Occ]
        ensures { result.now ≡ self.now.occs }
    {
        self.occs
    }
}
