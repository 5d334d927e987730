// Laws of what asks, with nothing to run. A caller names its kind of questions and its types of results by types of its own.
ghost use Rattle.asking.specs.Asking.{Kind};
ghost use Rattle.asking.specs.Laws.{AnswersJoin, RunGoesOn, RunStays, ThenAnswered, ThenRuns};
ghost use Rattle.asking.specs.Laws.{LookedRight, LookedEnds, LookedStays, LookedInOrder, EntriesTell, ThenLooked, TranslatedSame};

/// A kind of questions.
pub trait Questions {
    ghost kind: { Kind };
}

/// A type of results.
pub trait Results {
    ghost results: { Type 0 };
}

/// In turn: answers one after the other are first these and then those.
pub fn answers_join<K: Questions, A: Results>()
    ensures { AnswersJoin K.kind A.results }
{}

/// In turn: a run goes on from where answers to what is asked in turn led.
pub fn run_goes_on<K: Questions, A: Results>()
    ensures { RunGoesOn K.kind A.results }
{}

/// In turn: a run that gave a result used no more answers than there are, and more of them behind change nothing.
pub fn run_stays<K: Questions, A: Results>()
    ensures { RunStays K.kind A.results }
{}

/// In turn: answers to what asks and then goes on lead where they lead what asks, and then it goes on.
pub fn then_answered<K: Questions, A: Results, B: Results>()
    ensures { ThenAnswered K.kind A.results B.results }
{}

/// In turn: the run of what asks and then goes on is the run of what asks, and then the run of what it goes on with.
pub fn then_runs<K: Questions, A: Results, B: Results>()
    ensures { ThenRuns K.kind A.results B.results }
{}

/// By look-up: over answers that agree with what is given, a run that ends has the result over what is given. Else it
/// needs questions without an answer, at least one, which are asked over what is given too.
pub fn looked_right<K: Questions, A: Results>()
    ensures { LookedRight K.kind A.results }
{}

/// By look-up: where all that is asked over what is given is answered, the run ends.
pub fn looked_ends<K: Questions, A: Results>()
    ensures { LookedEnds K.kind A.results }
{}

/// By look-up: a run that ended ends so over more answers too.
pub fn looked_stays<K: Questions, A: Results>()
    ensures { LookedStays K.kind A.results }
{}

/// By look-up: what is looked up in entries that answer these questions, as it is given, is what is given, and there is an
/// answer to these questions alone.
pub fn entries_tell<K: Questions>()
    ensures { EntriesTell K.kind }
{}

/// By look-up, for questions that are the same by the test exactly where they are equal: over answers to the first
/// questions of all that is asked, each once, and to no others, a run needs the next questions of that list, at least one.
/// Where none is left, it ends with the result. The list may be cut anywhere.
pub fn looked_in_order<K: Questions, A: Results>()
    ensures { LookedInOrder K.kind A.results }
{}

/// By look-up: what asks and then goes on looks up what it asks, and then what it goes on with does.
pub fn then_looked<K: Questions, A: Results, B: Results>()
    ensures { ThenLooked K.kind A.results B.results }
{}

/// What is translated from one kind of questions to another has the same result, and asks the same in the other's words.
pub fn translated_same<From: Questions, To: Questions, A: Results>()
    ensures { TranslatedSame From.kind To.kind A.results }
{}
