// The questions of elaborations as a kind of what asks.
ghost use Rattle.asking.specs.Asking.{IsLawful};
ghost use Rattle.elab_state.specs.Wants.{wants};

use asking::Questions;

/// What names denote in front of an item, as a kind of questions.
pub struct Names;

impl Questions for Names {
    ghost use Rattle.elab_state.specs.Wants.{wants};

    ghost kind = { wants };
}

/// Two questions are the same by the test exactly where they are equal, so that each law of `asking` holds of them. There is nothing to
/// run.
pub fn questions_are_lawful()
    ensures { IsLawful wants }
{}
