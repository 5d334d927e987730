// What all units of the texts come to, and what is kept of them, so that a question works out nothing and a message only the units that it touches.
ghost use Rattle.std.specs.Prelude.{◌≡◌, ◌+◌, ◌++◌, ◌&&◌, not, ℕ, List, None, Some, bytes_eq, length, IfOk, IfSome, OnOk, if◌then◌else◌};
ghost use Rattle.doc_texts.specs.Texts.{Texts, texts_under};
ghost use Rattle.plain_mean.specs.Confs.{IsUsable};
ghost use Rattle.plain_mean.specs.Given.{text_in};
ghost use Rattle.plain_mean.specs.Lexing.{WereLexed};
ghost use Rattle.plain_mean.specs.Lists.{shown_in};
ghost use Rattle.plain_mean.specs.Renewed.{renewed};
ghost use Rattle.plain_mean.specs.Shown.{shown_by, units};
ghost use Rattle.plain_mean.specs.Within.{AreWithin};
ghost use Rattle.project_conf.specs.declared.conf.Conf.{Conf as Read};
ghost use Rattle.c_session.specs.Kept.{HasLexed, IsAnalysis};
ghost use Rattle.c_session.specs.Renewal.{held_at, held_of, stand_at};
ghost use Rattle.c_session.specs.Ties.News.{IsPrior};
ghost use Rattle.c_session.specs.Units.{WereCrossed, all_reads, crossed, cross_faults, own_faults};

use crate::cross::crossings_now;
use crate::held::{Standing, Waiting};
use crate::news::prior_of;
use crate::renewal::units_now;
use crate::showing::shown_of;
use doc_texts::{Docs, PriorTexts, paths_are_sets};
use plain_mean::{
    Changes, Grounds, KeptLexings, Lexings, Reading, ShownLists, grounds_hold, units, units_stay,
};
use project_conf::Conf;
use std::alloc::{AllocError, Global};
use std::sync::ledger::Ledger;
use steps::Steps;
use unit_index::{Crossings, IndexedUnit, Pool};
use uri_paths::Path;

/// What all units of some texts come to: what each file shows, what each unit means, with an index, and on what that rests, what lexing gave of the
/// texts that the units read, and the warnings across units.
#[derive(Drop)]
pub struct Analysis {
    pub(crate) alloc: Global,
    /// What each file shows.
    pub shown: ShownLists,
    pub(crate) units: Vec<IndexedUnit>,
    pub(crate) grounds: Vec<Grounds>,
    pub(crate) lexings: KeptLexings,
    /// The warnings across units, those of each unit without their tokens.
    pub(crate) across: Vec<Crossings>,
    // What the units have in common.
    pool: Pool,
}

impl Analysis {
    /// What no texts come to. It takes no memory.
    pub fn new(alloc: Global) -> Analysis
        ensures { (conf : Read) → IsAnalysis (texts_under None) conf result }
    {
        paths_are_sets();
        Analysis {
            alloc,
            shown: ShownLists::new(alloc),
            units: Vec::new(alloc),
            grounds: Vec::new(alloc),
            lexings: KeptLexings::new(alloc),
            across: Vec::new(alloc),
            pool: Pool::new(alloc),
        }
    }
}

/// What the texts come to now, and what the files showed before.
#[derive(Drop)]
pub(crate) struct Renewal {
    pub analysis: Analysis,
    pub before: ShownLists,
}

// What is kept, with its units by path.
#[derive(Drop)]
struct Parted {
    shown: ShownLists,
    waiting: Waiting,
    lexings: KeptLexings,
    across: Vec<Crossings>,
}

fn part(kept: Analysis) -> Result<Parted, AllocError>
    ensures shown { IfOk result (λ p. p.shown ≡ kept.shown) }
    ensures waiting { IfOk result (λ p. (q : List ℕ) → held_at p.waiting q ≡ held_of kept.units.items kept.grounds.items q None) }
    ensures lexings { IfOk result (λ p. p.lexings ≡ kept.lexings) }
    ensures across { IfOk result (λ p. p.across ≡ kept.across) }
{
    let Analysis {
        alloc,
        shown,
        units,
        grounds,
        lexings,
        across,
        pool,
    } = kept;
    let waiting = Waiting::of(alloc, units, grounds, pool)?;
    Ok(Parted {
        shown,
        waiting,
        lexings,
        across,
    })
}

fn is_at(unit: &IndexedUnit, path: &Path) -> bool
    ensures { result ≡ bytes_eq unit.now.path path.now }
{
    unit.path().as_str() == path.as_str()
}

// The units stand at these paths.
fn stand_at(units: &[IndexedUnit], paths: &[Path]) -> bool
    ensures { result ≡ stand_at units.now paths.now }
{
    let mut rest = units;
    let mut others = paths;
    'units: while let Some((unit, behind)) = rest.split_first() {
        rest = behind;
        let Some((path, behind)) = others.split_first() else {
            return false;
        };
        others = behind;
        if !is_at(unit, path) {
            return false;
        }
    }
    others.is_empty()
}

// What is kept of the warnings, where the units are those of before.
fn across_where(same: bool, has_new: bool, across: Vec<Crossings>) -> Option<Vec<Crossings>>
    ensures { result ≡ (if same && not has_new then Some across else None) }
{
    if same && !has_new { Some(across) } else { None }
}

// What these units come to, which are all units of the texts.
fn standing_as(
    alloc: Global,
    standing: Standing,
    pool: Pool,
    kept: Option<Vec<Crossings>>,
    lexings: Lexings<'_>,
) -> Result<Analysis, AllocError>
    ensures across { IfOk result (λ a. IfSome kept (λ k. WereCrossed k.items standing.news standing.units.items) → a.across.items ≡ crossed standing.units.items) }
    ensures shown { IfOk result (λ a. IfSome kept (λ k. WereCrossed k.items standing.news standing.units.items) → (path : List ℕ) → shown_in a.shown path ≡ shown_by lexings.entry (own_faults standing.units.items ++ cross_faults standing.units.items) (all_reads standing.units.items) path) }
    ensures within { IfOk result (λ a. (path : List ℕ) → AreWithin (length (text_in lexings.entry path)) (shown_in a.shown path)) }
    ensures units { IfOk result (λ a. a.units.items ≡ standing.units.items) }
    ensures grounds { IfOk result (λ a. a.grounds.items ≡ standing.grounds.items) }
    ensures lexed { IfOk result (λ a. HasLexed lexings.entry a) }
{
    let mut lexings = lexings;
    let made = standing.units.as_slice();
    let across = crossings_now(alloc, kept, &standing.news, made)?;
    let shown = shown_of(alloc, &mut lexings, made, across.as_slice())?;
    let Standing {
        units,
        grounds,
        news: _,
        has_new: _,
    } = standing;
    Ok(Analysis {
        alloc,
        shown,
        units,
        grounds,
        lexings: lexings.into_kept(),
        across,
        pool,
    })
}

/// Works out what the texts come to now, by what those before came to: each unit that wasn't one before, has another configuration, or asked something of
/// files that has another answer now, once, which is one step each. The definitions of the words are identifiers and have together at most
/// 131,072 bytes of names and texts, those of an entry of the database 2^25. Beside these units it costs the texts' paths, the database's
/// entries, the questions of all units, their faults, the paths that they read and, where what units see of one another isn't what it was, the names that they show
/// to one another. It fails for want of memory, and after 2^64-1
/// rounds of questions, whose answers no memory holds.
pub(crate) fn renewed<L: Ledger>(
    alloc: Global,
    kept: Analysis,
    docs: &Docs,
    conf: &Conf,
    prior: &PriorTexts,
    steps: &mut Steps<L>,
) -> Result<Renewal, AllocError>
    requires usable { IsUsable conf.now }
    requires lexed { WereLexed prior.now docs.now kept.lexings }
    ensures before { IfOk result (λ r. r.before ≡ kept.shown) }
    ensures analysis { IfOk result (λ r. (t : Texts) (c : Read) → IsPrior t prior.now docs.now → IsAnalysis t c kept → IsAnalysis docs.now conf.now r.analysis) }
    ensures steps { OnOk result ((t : Texts) (c : Read) → IsPrior t prior.now docs.now → IsAnalysis t c kept → steps.new ≡ steps.old + length (renewed t c docs.now conf.now)) }
{
    paths_are_sets();
    units_stay();
    grounds_hold();
    let reading = Reading::of(alloc, conf)?;
    let paths = units(alloc, docs, &reading)?;
    let all = paths.as_slice();
    let same = stand_at(kept.units.as_slice(), all);
    let Parted {
        shown,
        mut waiting,
        lexings,
        across,
    } = part(kept)?;
    let (mut changes, mut lexings) = Changes::of(alloc, docs, prior, lexings)?;
    let standing = units_now(
        alloc,
        &mut waiting,
        &mut changes,
        &mut lexings,
        &reading,
        all,
        steps,
    )?;
    let stays = across_where(same, standing.has_new, across);
    let pool = waiting.into_pool();
    let analysis = standing_as(alloc, standing, pool, stays, lexings)?;
    Ok(Renewal {
        analysis,
        before: shown,
    })
}

/// What the texts come to, each unit worked out, which is one step each. The definitions of the words are identifiers and have together at most
/// 131,072 bytes of names and texts, those of an entry of the database 2^25. Beside the units it costs the texts' paths, the
/// database's entries, the units' faults, the paths that they read and the names that they show to one another. It fails for want of memory, and after 2^64-1 rounds
/// of questions, whose answers no memory holds.
pub fn analysed<L: Ledger>(
    alloc: Global,
    docs: &Docs,
    conf: &Conf,
    steps: &mut Steps<L>,
) -> Result<Analysis, AllocError>
    requires { IsUsable conf.now }
    ensures analysis { IfOk result (λ a. IsAnalysis docs.now conf.now a) }
    ensures steps { OnOk result (steps.new ≡ steps.old + length (units docs.now conf.now)) }
{
    paths_are_sets();
    let nothing = Analysis::new(alloc);
    let none = Docs::new(alloc, None);
    let prior = prior_of(alloc, &none, docs)?;
    let renewed = renewed(alloc, nothing, docs, conf, &prior, steps)?;
    Ok(renewed.analysis)
}
