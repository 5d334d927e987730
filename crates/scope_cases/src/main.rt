// Scopes, line by line: reads `enter KIND`, `leave`, `declare SPACE NAME LIFE`, `find SPACE NAME`, `here SPACE NAME` and `linked
// NAME`, and prints behind each line what it answers. The life of its object tells a declaration from others; one that is
// automatic or a register has no linkage. With two numbers as words it declares and finds so many names, so many in each
// scope, and prints how many it found: `bench/run` times these.
#![tactic(auto)]

mod entities;
mod speed;
mod words;

use entities::object;
use scope_tables::{Entity, Life, Scopes};
use shared_text::Name;
use std::alloc::{AllocError, Global};
use std::io::Read;
use std::{env, io};
use words::{kind_named, life_named, space_named};

/// What a line answers.
enum Answer {
    NoCall,
    NoScope,
    Done,
    Nothing,
    Found(Life),
}

fn life_of(entity: Option<&Entity>) -> Option<Life> {
    match entity {
        Some(entity) => Some(entity.life),
        None => None,
    }
}

fn found(life: Option<Life>) -> Answer {
    match life {
        Some(life) => Answer::Found(life),
        None => Answer::Nothing,
    }
}

fn enter(scopes: &mut Scopes, kind: &str) -> Result<Answer, AllocError> {
    let Some(kind) = kind_named(kind) else {
        return Ok(Answer::NoCall);
    };
    scopes.enter(kind)?;
    Ok(Answer::Done)
}

fn leave(scopes: &mut Scopes) -> Answer {
    if scopes.depth() == 0 {
        return Answer::NoScope;
    }
    scopes.leave();
    Answer::Done
}

fn declare(
    alloc: Global,
    scopes: &mut Scopes,
    space: &str,
    name: &str,
    life: &str,
) -> Result<Answer, AllocError> {
    let Some(space) = space_named(alloc, space)? else {
        return Ok(Answer::NoCall);
    };
    let Some(life) = life_named(life) else {
        return Ok(Answer::NoCall);
    };
    if scopes.depth() == 0 {
        return Ok(Answer::NoScope);
    }
    let entity = object(alloc, name, life)?;
    let name = Name::from_str(alloc, name)?;
    let before = scopes.declare(space, name, entity)?;
    let life = life_of(before.as_ref());
    drop(before);
    Ok(found(life))
}

fn find(alloc: Global, scopes: &Scopes, space: &str, name: &str) -> Result<Answer, AllocError> {
    let Some(space) = space_named(alloc, space)? else {
        return Ok(Answer::NoCall);
    };
    Ok(found(life_of(scopes.find(&space, name))))
}

fn here(alloc: Global, scopes: &Scopes, space: &str, name: &str) -> Result<Answer, AllocError> {
    let Some(space) = space_named(alloc, space)? else {
        return Ok(Answer::NoCall);
    };
    Ok(found(life_of(scopes.find_here(&space, name))))
}

fn answered(alloc: Global, scopes: &mut Scopes, line: &str) -> Result<Answer, AllocError> {
    let mut words = line.split_ascii_whitespace();
    let call = words.next().unwrap_or("");
    let first = words.next().unwrap_or("");
    let second = words.next().unwrap_or("");
    let third = words.next().unwrap_or("");
    if call == "enter" {
        return enter(scopes, first);
    }
    if call == "leave" {
        return Ok(leave(scopes));
    }
    if call == "declare" {
        return declare(alloc, scopes, first, second, third);
    }
    if call == "find" {
        return find(alloc, scopes, first, second);
    }
    if call == "here" {
        return here(alloc, scopes, first, second);
    }
    if call == "linked" {
        return Ok(found(life_of(scopes.find_linked(first))));
    }
    Ok(Answer::NoCall)
}

fn show(rt: &HostRuntime, scopes: &mut Scopes, line: &str) -> io::Result<()> {
    match answered(rt.alloc(), scopes, line)? {
        Answer::NoCall => println!(rt; "{line} is no call"),
        Answer::NoScope => println!(rt; "{line} = no scope"),
        Answer::Done => println!(rt; "{line} = done"),
        Answer::Nothing => println!(rt; "{line} = nothing"),
        Answer::Found(life) => println!(rt; "{line} = {life:?}"),
    }
}

fn show_lines(rt: &HostRuntime) -> io::Result<()> {
    let mut text = String::new(rt.alloc());
    rt.stdin().read_to_string(&mut text)?;
    let mut scopes = Scopes::new(rt.alloc());
    for line in text.lines() {
        show(rt, &mut scopes, line)?;
    }
    Ok(())
}

/// The numbers among the words after the program's name.
fn numbers_asked(rt: &HostRuntime) -> io::Result<Vec<u64>> {
    let mut numbers = Vec::new(rt.alloc());
    for word in env::args(rt)?.skip(1) {
        if let Ok(number) = word.parse::<u64>() {
            numbers.push(number)?;
        }
    }
    Ok(numbers)
}

fn main(rt: HostRuntime) -> io::Result<()> {
    let numbers = numbers_asked(&rt)?;
    match numbers.as_slice() {
        [names, each] => {
            let found = speed::play(rt.alloc(), *names, *each)?;
            println!(rt; "{found}")
        }
        _ => show_lines(&rt),
    }
}
