// What each token is where the parser stands: under the typedef names in force (ISO C11 6.2.1). A list of parameters has a view of its
// own, in which the names that it hides are identifiers, and shares with others what it doesn't change.
ghost use Rattle.std.specs.Prelude.{◌≡◌, not, [], ℕ, ◌-◌, ◌<◌, ◌≤◌, ◌==◌, ◌||◌, false, length, IfOk, IsTrue, OnOk, slice_index_or};
ghost use Rattle.c_parser.specs.Kinds as spec;
ghost use Rattle.c_parser.specs.Enumerations as enumerations;
ghost use Rattle.c_parser.specs.Enumerations.{settle};
ghost use Rattle.c_parser.specs.Scopes.{shade, forced};
ghost use Rattle.c_parser.specs.Words as words;

use crate::enumerations::Marks;
use crate::kinds::Kind;
use std::alloc::{AllocError, Global};
use std::marker::Model;
use std::rc::Rc;

// The kinds of all tokens for a part that begins at `from`, and which typedef names are hidden, by their numbers; those behind the last flag are
// not. Of a typedef name the enumerators between `from` and it are hidden too. A look-up costs a constant. The first name that a list hides takes a
// copy of the flags, each further one a constant.
#[derive(Drop)]
pub(crate) struct Kinds<'a> {
    tokens: &'a [Kind],
    hidden: Rc<Vec<bool>>,
    marks: Rc<Marks>,
    from: u32,
}

impl<'a> Model for Kinds<'a> {
    ghost use Rattle.std.specs.Prelude.{List, map};
    ghost use Rattle.c_parser.specs.declared.kinds.Kind.{Kind};
    ghost use Rattle.c_parser.specs.Enumerations.{AreMarks, settle};
    ghost use Rattle.c_parser.specs.Scopes.{shade};

    ghost Value = { List Kind };

    ghost view = { λ k. settle (map (shade k.hidden.value.items) k.tokens.now) k.from };

    ghost invariant = { λ k. AreMarks k.tokens.now k.marks.value.constants.items k.marks.value.earlier.items };
}

// A kind under these flags.
fn shaded(hidden: &[bool], kind: Kind) -> Kind
    ensures { result ≡ shade hidden.now kind }
{
    let Kind::TypeName(number) = kind else {
        return kind;
    };
    match hidden.get(number as usize) {
        Some(true) => Kind::Identifier,
        _ => kind,
    }
}

// A kind under these flags, in a part that begins at `from`; the number stands behind the last enumerator in front of it that has its name.
fn forced(hidden: &[bool], earlier: u32, from: u32, kind: Kind) -> Kind
    ensures { result ≡ forced hidden.now earlier from kind }
{
    let Kind::TypeName(number) = shaded(hidden, kind) else {
        return shaded(hidden, kind);
    };
    if from < earlier {
        return Kind::Identifier;
    }
    Kind::TypeName(number)
}

// Makes room for the flag of this name.
#[tactic(auto, using(crate::proofs::ScopeLemmas::flag_behind))]
fn cover(flags: &mut Vec<bool>, number: u32) -> Result<(), AllocError>
    ensures same { (n : ℕ) → slice_index_or flags.new.items n false ≡ slice_index_or flags.old.items n false }
    ensures covered { OnOk result (number < length flags.new.items) }
{
    'flags: while flags.len() <= number as usize {
        flags.push(false)?;
    }
    Ok(())
}

// The flags with this one set.
fn set(flags: Vec<bool>, number: u32) -> Result<Vec<bool>, AllocError>
    ensures { IfOk result (λ v. (n : ℕ) → slice_index_or v.items n false ≡ ((n == number) || slice_index_or flags.items n false)) }
{
    let mut flags = flags;
    cover(&mut flags, number)?;
    flags[number as usize] = true;
    Ok(flags)
}

// Flags that are no one else's.
fn own(alloc: Global, flags: Rc<Vec<bool>>) -> Result<Vec<bool>, AllocError>
    ensures { IfOk result (λ v. v.items ≡ flags.value.items) }
{
    match Rc::try_unwrap(flags) {
        Ok(flags) => Ok(flags),
        Err(shared) => Vec::from_slice(alloc, &shared),
    }
}

// No name is hidden.
fn nothing_hidden(alloc: Global) -> Result<Rc<Vec<bool>>, AllocError>
    ensures { IfOk result (λ h. h.value.items ≡ []) }
{
    let hidden = Rc::new(alloc, Vec::new(alloc))?;
    Ok(hidden)
}

// The flags with this one set, which others don't share.
fn marked(alloc: Global, hidden: Rc<Vec<bool>>, number: u32) -> Result<Rc<Vec<bool>>, AllocError>
    ensures { IfOk result (λ h. (n : ℕ) → slice_index_or h.value.items n false ≡ ((n == number) || slice_index_or hidden.value.items n false)) }
{
    let flags = own(alloc, hidden)?;
    let flags = set(flags, number)?;
    let hidden = Rc::new(alloc, flags)?;
    Ok(hidden)
}

impl<'a> Kinds<'a> {
    // Tokens of which no name is hidden, but by enumerators.
    pub(crate) fn new(alloc: Global, tokens: &'a [Kind]) -> Result<Kinds<'a>, AllocError>
        requires { length tokens.now ≤ 2000000 }
        ensures shown { IfOk result (λ k. k ≡ settle tokens.now 0) }
        ensures size { IfOk result (λ k. length k ≡ length tokens.now) }
    {
        let hidden = nothing_hidden(alloc)?;
        let marks = Rc::new(alloc, Marks::of(alloc, tokens)?)?;
        Ok(Kinds {
            tokens,
            hidden,
            marks,
            from: 0,
        })
    }

    // How many tokens there are.
    pub(crate) fn len(&self) -> usize
        ensures { result ≡ length self.now }
    {
        self.tokens.len()
    }

    // The kind of the token with this number, `End` behind the last.
    pub(crate) fn at(&self, at: u32) -> Kind
        ensures kind { result ≡ spec.kind_at self.now at }
        ensures inside { spec.IsInside self.now at result }
    {
        let kind = token_at(self.tokens, at);
        let Kind::TypeName(_) = kind else {
            return kind;
        };
        forced(&self.hidden, self.marks.earlier(at), self.from, kind)
    }

    // Whether this token is the constant of an enumerator, whatever is declared.
    pub(crate) fn enumerates(&self, at: u32) -> bool
        ensures { result ≡ enumerations.enumerates self.now at }
    {
        self.marks.enumerates(at)
    }

    // The same view.
    pub(crate) fn share(&self) -> Result<Kinds<'a>, AllocError>
        ensures { IfOk result (λ k. k ≡ self.now) }
    {
        let hidden = self.hidden.clone()?;
        let marks = self.marks.clone()?;
        Ok(Kinds {
            tokens: self.tokens,
            hidden,
            marks,
            from: self.from,
        })
    }

    // The view in which this typedef name is hidden.
    fn without(self, alloc: Global, number: u32) -> Result<Kinds<'a>, AllocError>
        ensures { IfOk result (λ k. k ≡ spec.hide_word self.entry number) }
    {
        let Kinds {
            tokens,
            hidden,
            marks,
            from,
        } = self;
        let hidden = marked(alloc, hidden, number)?;
        Ok(Kinds {
            tokens,
            hidden,
            marks,
            from,
        })
    }
}

// The view where this name is declared, if there is one.
pub(crate) fn hide<'a>(
    alloc: Global,
    kinds: Kinds<'a>,
    name: Option<u32>,
) -> Result<Kinds<'a>, AllocError>
    ensures { IfOk result (λ k. k ≡ spec.hide kinds.entry name) }
{
    let Some(at) = name else {
        return Ok(kinds);
    };
    match kinds.at(at) {
        Kind::TypeName(number) => kinds.without(alloc, number),
        _ => Ok(kinds),
    }
}

// The token with this number, `End` behind the last.
pub(crate) fn token_at(tokens: &[Kind], at: u32) -> Kind
    ensures kind { result ≡ spec.kind_at tokens.now at }
    ensures inside { spec.IsInside tokens.now at result }
{
    match tokens.get(at as usize) {
        Some(kind) => *kind,
        None => Kind::End,
    }
}

/// The identifiers of an item, each with its number, and which of them are no typedef names where the parser stands (6.2.1, 6.7.8).
#[derive(Drop)]
pub struct Scope<'a> {
    tokens: &'a [Kind],
    hidden: Rc<Vec<bool>>,
    marks: Rc<Marks>,
}

impl<'a> Model for Scope<'a> {
    ghost use Rattle.c_parser.specs.Enumerations.{AreMarks};
    ghost use Rattle.c_parser.specs.Words.{Words};

    ghost Value = { Words };

    ghost view = { λ s. record { kinds = s.tokens.now; hidden = s.hidden.value.items } };

    ghost invariant = { λ s. AreMarks s.tokens.now s.marks.value.constants.items s.marks.value.earlier.items };
}

// These flags with this one as told, if it is among them.
#[tactic(auto, unfolding(crate::specs::Words::flagged))]
fn flagged(flags: Vec<bool>, number: u32, flag: bool) -> Vec<bool>
    ensures { result.items ≡ words.flagged flags.items number flag }
{
    let mut flags = flags;
    if flags.len() <= number as usize {
        return flags;
    }
    flags[number as usize] = flag;
    flags
}

// Whether this flag is as told, or there is none: nothing changes then.
fn is_told(hidden: &Rc<Vec<bool>>, number: u32, flag: bool) -> bool
    ensures { IsTrue result → slice_index_or hidden.now.value.items number flag ≡ flag }
{
    match hidden.get(number as usize) {
        Some(known) => *known == flag,
        None => true,
    }
}

// The same of flags that may be shared: these are copied where the flag turns.
fn told(
    alloc: Global,
    hidden: Rc<Vec<bool>>,
    number: u32,
    flag: bool,
) -> Result<Rc<Vec<bool>>, AllocError>
    ensures { IfOk result (λ h. h.value.items ≡ words.flagged hidden.value.items number flag) }
{
    if is_told(&hidden, number, flag) {
        return Ok(hidden);
    }
    let flags = own(alloc, hidden)?;
    let hidden = Rc::new(alloc, flagged(flags, number, flag))?;
    Ok(hidden)
}

impl<'a> Scope<'a> {
    /// Tokens with these flags. Linear.
    pub fn new(
        alloc: Global,
        tokens: &'a [Kind],
        hidden: Vec<bool>,
    ) -> Result<Scope<'a>, AllocError>
        requires { length tokens.now ≤ 2000000 }
        ensures { IfOk result (λ s. s ≡ record { kinds = tokens.now; hidden = hidden.items }) }
    {
        let hidden = Rc::new(alloc, hidden)?;
        let marks = Rc::new(alloc, Marks::of(alloc, tokens)?)?;
        Ok(Scope {
            tokens,
            hidden,
            marks,
        })
    }

    // What the tokens are for a part that begins here.
    pub(crate) fn kinds(&self, from: u32) -> Result<Kinds<'a>, AllocError>
        ensures shown { IfOk result (λ k. k ≡ words.shown_from self.now from) }
        ensures size { IfOk result (λ k. length k ≡ length self.now.kinds) }
    {
        let hidden = self.hidden.clone()?;
        let marks = self.marks.clone()?;
        Ok(Kinds {
            tokens: self.tokens,
            hidden,
            marks,
            from,
        })
    }

    /// What the token with this number is here, `End` behind the last.
    pub fn kind_at(&self, at: u32) -> Kind
        ensures kind { result ≡ words.kind_in self.now at }
        ensures inside { spec.IsInside self.now.kinds at result }
    {
        match self.tokens.get(at as usize) {
            Some(kind) => shaded(&self.hidden, *kind),
            None => Kind::End,
        }
    }

    /// The same identifiers. They are shared.
    pub fn share(&self) -> Result<Scope<'a>, AllocError>
        ensures { IfOk result (λ s. s ≡ self.now) }
    {
        let hidden = self.hidden.clone()?;
        let marks = self.marks.clone()?;
        Ok(Scope {
            tokens: self.tokens,
            hidden,
            marks,
        })
    }

    // The token with this number, whatever is declared.
    pub(crate) fn at(&self, at: u32) -> Kind
        ensures kind { result ≡ spec.kind_at self.now.kinds at }
        ensures inside { spec.IsInside self.now.kinds at result }
    {
        token_at(self.tokens, at)
    }

    // Where the identifier with this number is declared, as a typedef name or not.
    pub(crate) fn declare(
        self,
        alloc: Global,
        typedef: bool,
        at: u32,
    ) -> Result<Scope<'a>, AllocError>
        ensures { IfOk result (λ s. s ≡ words.declared self.entry typedef at) }
    {
        let kind = self.at(at);
        let Kind::TypeName(number) = kind else {
            return Ok(self);
        };
        let Scope {
            tokens,
            hidden,
            marks,
        } = self;
        let hidden = told(alloc, hidden, number, !typedef)?;
        Ok(Scope {
            tokens,
            hidden,
            marks,
        })
    }

    // Behind this token, which is declared where it is the constant of an enumerator.
    fn past_one(self, alloc: Global, at: u32) -> Result<Scope<'a>, AllocError>
        ensures { IfOk result (λ s. s ≡ words.past_one self.entry at) }
    {
        if !self.marks.enumerates(at) {
            return Ok(self);
        }
        let behind = self.declare(alloc, false, at)?;
        Ok(behind)
    }

    // Behind a part from one place to another: where its enumerators are declared.
    pub(crate) fn past(self, alloc: Global, from: u32, to: u32) -> Result<Scope<'a>, AllocError>
        ensures { IfOk result (λ s. s ≡ words.past_range self.entry from (to - from)) }
    {
        let mut scope = self;
        let mut at = from;
        'tokens: while at < to {
            scope = scope.past_one(alloc, at)?;
            at += 1;
        }
        Ok(scope)
    }
}
