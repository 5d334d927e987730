// Laws of the definitions, with nothing to run.
ghost use Rattle.std.specs.Prelude.{◌≡◌, ℕ, List, [], None, Some};
ghost use Rattle.tok_data.specs.declared.sources.TokId.{TokId as Tok};
ghost use Rattle.tok_data.specs.declared.tokens.OutToken.{OutToken as Out};
ghost use Rattle.macro_expand.specs.Expansion.{Definitions, expanded, line_in};

/// Where no line is wanted, the lines that are known make no difference.
#[tactic(auto, using(crate::proofs::LineLemmas::expanded_quiet))]
pub fn lines_change_nothing()
    ensures { (table : Definitions) (lines : List (Tok × ℕ)) (budget : ℕ) (tokens : List Out) → (expanded table [] budget tokens).asked ≡ None → expanded table [] budget tokens ≡ expanded table lines budget tokens }
{}

/// Where no line is wanted beside those that are known, more of them make no difference.
#[tactic(auto, using(crate::proofs::LineLemmas::expanded_by))]
pub fn more_lines_change_nothing()
    ensures { (table : Definitions) (few lines : List (Tok × ℕ)) (budget : ℕ) (tokens : List Out) → ((site : Tok) (n : ℕ) → line_in few site ≡ Some n → line_in lines site ≡ Some n) → (expanded table few budget tokens).asked ≡ None → expanded table few budget tokens ≡ expanded table lines budget tokens }
{}
