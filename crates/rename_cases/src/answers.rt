// What the calls answer, printed.
use crate::project::Units;
use rename_core::{
    Class, Edits, Plan, RenameError, TwoMeanings, UnitView, class_of, confirm, plan,
};
use scope_tables::{Anchor, Occ};
use shared_text::Name;
use std::io;
use tok_data::TokId;

fn print_token(rt: &HostRuntime, word: &str, tok: &TokId) -> io::Result<()> {
    let file = tok.file.as_str();
    let at = tok.at;
    println!(rt; "  {word} {file} {at}")
}

fn print_tokens(rt: &HostRuntime, toks: &[TokId]) -> io::Result<()> {
    for tok in toks {
        print_token(rt, "token", tok)?;
    }
    Ok(())
}

fn print_found(rt: &HostRuntime, word: &str, tok: &Option<TokId>) -> io::Result<()> {
    match tok {
        Some(tok) => print_token(rt, word, tok),
        None => Ok(()),
    }
}

fn print_anchor(rt: &HostRuntime, anchor: &Anchor) -> io::Result<()> {
    match anchor {
        Anchor::External(name) => {
            let name = name.as_str();
            println!(rt; "  anchor external {name}")
        }
        Anchor::Local(tok) => print_token(rt, "anchor local", tok),
        Anchor::Made(tok, name) => {
            let name = name.as_str();
            let file = tok.file.as_str();
            let at = tok.at;
            println!(rt; "  anchor made {file} {at} {name}")
        }
        Anchor::Macro(name) => {
            let name = name.as_str();
            println!(rt; "  anchor macro {name}")
        }
    }
}

fn print_two(rt: &HostRuntime, two: &TwoMeanings) -> io::Result<()> {
    print_token(rt, "two meanings", &two.tok)?;
    print_anchor(rt, &two.first)?;
    print_anchor(rt, &two.second)
}

fn print_name(rt: &HostRuntime, name: &Option<Name>) -> io::Result<()> {
    match name {
        Some(name) => {
            let name = name.as_str();
            println!(rt; "  external {name}")
        }
        None => Ok(()),
    }
}

fn print_class(rt: &HostRuntime, class: &Class) -> io::Result<()> {
    print_tokens(rt, class.toks.as_slice())?;
    print_name(rt, &class.external)?;
    print_found(rt, "library", &class.library)?;
    print_found(rt, "pasted", &class.pasted)?;
    print_found(rt, "spelled", &class.spelled)?;
    if let Some(two) = &class.two {
        return print_two(rt, two);
    }
    if class.can_be_renamed() {
        return println!(rt; "  may be renamed");
    }
    Ok(())
}

fn print_error(rt: &HostRuntime, error: &RenameError) -> io::Result<()> {
    match error {
        RenameError::NoName => println!(rt; "  NoName"),
        RenameError::NotIdentifier => println!(rt; "  NotIdentifier"),
        RenameError::Library(tok) => print_token(rt, "Library", tok),
        RenameError::Pasted(tok) => print_token(rt, "Pasted", tok),
        RenameError::Stringized(tok) => print_token(rt, "Stringized", tok),
        RenameError::TwoMeanings(two) => print_two(rt, two),
        RenameError::ExternalTaken(tok) => print_token(rt, "ExternalTaken", tok),
        RenameError::Clash(tok) => print_token(rt, "Clash", tok),
        RenameError::NoMemory => println!(rt; "  NoMemory"),
    }
}

fn print_edits(rt: &HostRuntime, edits: &Edits) -> io::Result<()> {
    let name = edits.new_name.as_str();
    println!(rt; "  becomes {name}")?;
    print_tokens(rt, edits.toks.as_slice())
}

fn show_class_in(rt: &HostRuntime, lists: &[&[Occ]], tok: &TokId) -> io::Result<()> {
    match class_of(rt.alloc(), lists, tok) {
        Ok(class) => print_class(rt, &class),
        Err(error) => Err(io::Error::from(error)),
    }
}

/// The class of a token, and whether it may be renamed at all.
pub fn show_class(rt: &HostRuntime, before: &Units, tok: &TokId) -> io::Result<()> {
    let lists = before.occs(rt.alloc())?;
    show_class_in(rt, lists.as_slice(), tok)
}

fn confirmed(
    rt: &HostRuntime,
    before: &[UnitView<'_>],
    after: &[UnitView<'_>],
    planned: Plan,
) -> io::Result<()> {
    match confirm(rt.alloc(), planned, before, after) {
        Ok(edits) => print_edits(rt, &edits),
        Err(error) => print_error(rt, &error),
    }
}

fn planned(
    rt: &HostRuntime,
    before: &[UnitView<'_>],
    after: &[UnitView<'_>],
    class: Class,
    name: &str,
) -> io::Result<()> {
    match plan(rt.alloc(), class, name) {
        Ok(planned) => confirmed(rt, before, after, planned),
        Err(error) => print_error(rt, &error),
    }
}

fn renamed(
    rt: &HostRuntime,
    lists: &[&[Occ]],
    before: &[UnitView<'_>],
    after: &[UnitView<'_>],
    tok: &TokId,
    name: &str,
) -> io::Result<()> {
    match class_of(rt.alloc(), lists, tok) {
        Ok(class) => planned(rt, before, after, class, name),
        Err(error) => Err(io::Error::from(error)),
    }
}

/// What a rename of a token comes to.
pub fn show_rename(
    rt: &HostRuntime,
    before: &Units,
    after: &Units,
    tok: &TokId,
    name: &str,
) -> io::Result<()> {
    let lists = before.occs(rt.alloc())?;
    let old = before.views(rt.alloc())?;
    let new = after.views(rt.alloc())?;
    renamed(
        rt,
        lists.as_slice(),
        old.as_slice(),
        new.as_slice(),
        tok,
        name,
    )
}
