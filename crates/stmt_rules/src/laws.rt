// What the rules of single statements say of several (ISO C11 6.8.4.2p3).
ghost use Rattle.stmt_rules.specs.Apart.{AreApart};

/// The cases of a `switch` are told one by one, and each exactly where one in front of it has the same value after the conversion. There
/// is nothing to run.
pub fn cases_are_apart()
    ensures { AreApart }
{}
