// The body of a function, statement by statement.
use crate::firsts::first_named;
use crate::operands::{part_named, value_named};
use crate::types::plain;
use scope_tables::{Anchor, Entity, EntityKind, Life, Linkage, ScopeKind, Scopes};
use shared_text::Name;
use std::alloc::{AllocError, Global};
use stmt_rules::{
    Switches, Within, check_break, check_continue, check_for, check_goto, check_if, check_label,
    check_loop, check_return, check_switch,
};
use type_data::{CType, Fault, Node, Space};

/// A `goto`, with its place.
#[derive(Drop)]
struct Jump {
    name: Name,
    at: u32,
}

/// What is known of a body at a place in it.
#[derive(Drop)]
pub struct Body {
    pub faults: Vec<Fault>,
    function: CType,
    switches: Switches,
    around: Vec<Within>,
    within: Within,
    labels: Scopes,
    jumps: Vec<Jump>,
}

fn label(name: &Name) -> Result<Entity, AllocError> {
    let anchor = Anchor::External(name.share()?);
    Ok(Entity {
        name: name.share()?,
        kind: EntityKind::Label,
        ty: CType::of(Node::Void),
        qual: plain(),
        linkage: Linkage::None,
        life: Life::Without,
        value: None,
        anchor,
    })
}

impl Body {
    /// That of a function of this type, at its front.
    pub fn new(alloc: Global, function: CType) -> Body {
        Body {
            faults: Vec::new(alloc),
            function,
            switches: Switches::new(alloc),
            around: Vec::new(alloc),
            within: Within::nowhere(),
            labels: Scopes::new(alloc),
            jumps: Vec::new(alloc),
        }
    }

    pub fn begin(&mut self) -> Result<(), AllocError> {
        self.labels.enter(ScopeKind::Function)
    }

    fn tell(&mut self, fault: Option<Fault>) -> Result<(), AllocError> {
        if let Some(fault) = fault {
            self.faults.push(fault)?;
        }
        Ok(())
    }

    fn go_in(&mut self, within: Within) -> Result<(), AllocError> {
        self.around.push(self.within)?;
        self.within = within;
        Ok(())
    }

    fn test(&mut self, alloc: Global, at: u32, word: &str) -> Result<(), AllocError> {
        let judged = part_named(alloc, word)?;
        let fault = check_if(alloc, at, &judged);
        drop(judged);
        self.tell(fault?)
    }

    fn repeat(&mut self, alloc: Global, at: u32, word: &str) -> Result<(), AllocError> {
        if !word.is_empty() {
            let judged = part_named(alloc, word)?;
            let fault = check_loop(alloc, at, &judged);
            drop(judged);
            self.tell(fault?)?;
        }
        self.go_in(self.within.looped())
    }

    fn switch(&mut self, alloc: Global, at: u32, word: &str) -> Result<(), AllocError> {
        let judged = part_named(alloc, word)?;
        let fault = check_switch(alloc, at, &judged);
        let entered = self.switches.enter(alloc, &judged);
        drop(judged);
        self.tell(fault?)?;
        entered?;
        self.go_in(self.within.switched())
    }

    // The innermost loop or `switch` ends: a `switch`, where `word` says so.
    fn end(&mut self, word: &str) {
        if word == "switch" {
            self.switches.leave();
        }
        if let Some(within) = self.around.pop() {
            self.within = within;
        }
    }

    fn case(&mut self, alloc: Global, at: u32, word: &str) -> Result<(), AllocError> {
        let fault = self.switches.case_label(alloc, at, value_named(word))?;
        self.tell(fault)
    }

    fn name(&mut self, alloc: Global, at: u32, word: &str) -> Result<(), AllocError> {
        let name = Name::from_str(alloc, word)?;
        let fault = check_label(alloc, at, &name, &self.labels)?;
        self.tell(fault)?;
        if self.labels.depth() == 0 {
            return Ok(());
        }
        let label = label(&name)?;
        let before = self.labels.declare(Space::Labels, name, label)?;
        drop(before);
        Ok(())
    }

    fn jump(&mut self, alloc: Global, at: u32, word: &str) -> Result<(), AllocError> {
        let name = Name::from_str(alloc, word)?;
        self.jumps.push(Jump { name, at })?;
        Ok(())
    }

    fn give(&mut self, alloc: Global, at: u32, word: &str) -> Result<(), AllocError> {
        if word.is_empty() {
            let fault = check_return(alloc, at, &self.function, None)?;
            return self.tell(fault);
        }
        let judged = part_named(alloc, word)?;
        let fault = check_return(alloc, at, &self.function, Some(&judged));
        drop(judged);
        self.tell(fault?)
    }

    fn begin_for(&mut self, alloc: Global, at: u32, words: &str) -> Result<(), AllocError> {
        let fault = check_for(alloc, &first_named(at, words));
        self.tell(fault)
    }

    fn leap(&mut self, alloc: Global, at: u32, word: &str) -> Result<(), AllocError> {
        if word == "break" {
            let fault = check_break(alloc, at, self.within);
            return self.tell(fault);
        }
        let fault = check_continue(alloc, at, self.within);
        self.tell(fault)
    }

    /// One statement, or the front of one.
    pub fn read(&mut self, alloc: Global, at: u32, statement: &str) -> Result<(), AllocError> {
        let (word, rest) = match statement.split_once(' ') {
            Some(pair) => pair,
            None => (statement, ""),
        };
        match word {
            "if" => self.test(alloc, at, rest),
            "loop" => self.repeat(alloc, at, rest),
            "switch" => self.switch(alloc, at, rest),
            "end" => {
                self.end(rest);
                Ok(())
            }
            "case" => self.case(alloc, at, rest),
            "default" => {
                let fault = self.switches.default_label(alloc, at);
                self.tell(fault)
            }
            "label" => self.name(alloc, at, rest),
            "goto" => self.jump(alloc, at, rest),
            "return" => self.give(alloc, at, rest),
            "for" => self.begin_for(alloc, at, rest),
            _ => self.leap(alloc, at, word),
        }
    }

    /// The end, at which each `goto` is looked at.
    pub fn finish(&mut self, alloc: Global) -> Result<(), AllocError> {
        for jump in &self.jumps {
            let fault = check_goto(alloc, jump.at, &jump.name, &self.labels)?;
            if let Some(fault) = fault {
                self.faults.push(fault)?;
            }
        }
        Ok(())
    }
}
