// The unit that is read.
use crate::parts::Part;
use crate::shown::show;
use crate::words::{number, out_token, share_item, token_id};
use scope_tables::{BodyMeaning, HeadMeaning};
use std::alloc::{AllocError, Global};
use tok_data::{FileId, OutToken, Spelt, TokId};
use type_data::ItemName;
use unit_items::{Item, items_of};
use unit_meaning::meaning_of;

/// A unit, as far as it was read.
#[derive(Drop)]
pub struct Unit {
    tokens: Vec<OutToken>,
    entered: Vec<(FileId, TokId)>,
    items: Vec<Item>,
    part: Option<Part>,
    heads: Vec<HeadMeaning>,
    bodies: Vec<BodyMeaning>,
}

impl Unit {
    pub fn new(alloc: Global) -> Unit {
        Unit {
            tokens: Vec::new(alloc),
            entered: Vec::new(alloc),
            items: Vec::new(alloc),
            part: None,
            heads: Vec::new(alloc),
            bodies: Vec::new(alloc),
        }
    }

    fn spell(&mut self, alloc: Global, file: &str, at: u32, words: &str) -> Result<(), AllocError> {
        let mut at = at;
        for word in words.split(' ') {
            let tok = token_id(alloc, file, at)?;
            let site = tok.copy()?;
            let token = out_token(alloc, word, Spelt::At(tok), site)?;
            self.tokens.push(token)?;
            at = at.wrapping_add(1);
        }
        Ok(())
    }

    fn make(&mut self, alloc: Global, file: &str, at: u32, word: &str) -> Result<(), AllocError> {
        let site = token_id(alloc, file, at)?;
        let token = out_token(alloc, word, Spelt::Made, site)?;
        self.tokens.push(token)?;
        Ok(())
    }

    fn enter(&mut self, alloc: Global, file: &str, by: &str, at: u32) -> Result<(), AllocError> {
        let file = token_id(alloc, file, 0)?.file;
        let by = token_id(alloc, by, at)?;
        self.entered.push((file, by))?;
        Ok(())
    }

    fn close(&mut self, alloc: Global) -> Result<(), AllocError> {
        let Some(part) = self.part.take() else {
            return Ok(());
        };
        if part.is_body {
            self.bodies.push(part.into_body(alloc)?)?;
            return Ok(());
        }
        self.heads.push(part.into_head(alloc)?)?;
        Ok(())
    }

    fn cut(&mut self, alloc: Global) -> Result<(), AllocError> {
        if self.items.is_empty() && self.tokens.len() < 1000 {
            self.items = items_of(alloc, self.tokens.as_slice())?;
        }
        Ok(())
    }

    fn name(&self, item: u32) -> Result<Option<ItemName>, AllocError> {
        let Some(item) = self.items.get(item as usize) else {
            return Ok(None);
        };
        let name = share_item(&item.name)?;
        Ok(Some(name))
    }

    fn open(&mut self, alloc: Global, what: &str, item: u32) -> Result<bool, AllocError> {
        self.cut(alloc)?;
        self.close(alloc)?;
        let Some(name) = self.name(item)? else {
            return Ok(false);
        };
        self.part = Some(Part::new(alloc, name, what == "body", what == "inline"));
        Ok(true)
    }

    fn read_part(&mut self, alloc: Global, line: &str) -> Result<bool, AllocError> {
        match &mut self.part {
            Some(part) => part.read(alloc, self.items.as_slice(), line),
            None => Ok(false),
        }
    }

    fn read_tokens(
        &mut self,
        alloc: Global,
        what: &str,
        file: &str,
        second: &str,
        rest: &str,
    ) -> Result<(), AllocError> {
        let at = number(Some(second));
        if what == "text" {
            return self.spell(alloc, file, at, rest);
        }
        if what == "made" {
            return self.make(alloc, file, at, rest);
        }
        self.enter(alloc, file, second, number(Some(rest)))
    }

    /// One line; `false` where it is none.
    pub fn read(&mut self, alloc: Global, line: &str) -> Result<bool, AllocError> {
        let mut words = line.splitn(4, ' ');
        let what = words.next().unwrap_or("");
        let first = words.next().unwrap_or("");
        let second = words.next().unwrap_or("");
        let rest = words.next().unwrap_or("");
        if what == "text" || what == "made" || what == "enter" {
            self.read_tokens(alloc, what, first, second, rest)?;
            return Ok(true);
        }
        let item = number(Some(first));
        if what == "head" || what == "inline" || what == "body" {
            return self.open(alloc, what, item);
        }
        self.read_part(alloc, line)
    }

    /// What it means, as it is printed.
    pub fn meaning(&mut self, alloc: Global) -> Result<String, AllocError> {
        self.cut(alloc)?;
        self.close(alloc)?;
        let meaning = meaning_of(
            alloc,
            self.tokens.as_slice(),
            self.items.as_slice(),
            self.entered.as_slice(),
            self.heads.as_slice(),
            self.bodies.as_slice(),
        )?;
        show(alloc, &meaning)
    }
}
