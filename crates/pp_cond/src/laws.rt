// A law over the definitions alone, with nothing to run.
ghost use Rattle.pp_cond.specs.Conditions.{Meaning};

/// What is read of symbols, one after the other, is what the grammar of constant expressions (ISO C11 6.6) says of them.
pub fn conditions_mean()
    ensures { Meaning }
{}
