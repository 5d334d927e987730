// Laws on statements, bodies and units. They have nothing to run; their contracts are the laws.
ghost use Rattle.stmt_parser.specs.Balance.{StatementsAreBalanced};
ghost use Rattle.stmt_parser.specs.Bodies.{BodyReadingIsUnique};
ghost use Rattle.stmt_parser.specs.Externals.{UnitsAreCut};

use c_parser::parts_law;

/// Unique reading: no two bodies of the grammar spell the same tokens.
pub fn body_reading_is_unique()
    ensures { BodyReadingIsUnique }
{
    parts_law();
}

/// Brackets are balanced in statements.
pub fn statements_are_balanced()
    ensures { StatementsAreBalanced }
{
    parts_law();
}

/// A list of external declarations (6.9), in which each body's `{` stands behind a `)`, is cut into these by `item_cut`'s definition, where the
/// tokens are spelled as their kinds say.
pub fn units_are_cut()
    ensures { UnitsAreCut }
{
    parts_law();
}
