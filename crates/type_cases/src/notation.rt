// Types in postfix notation: each word takes its parts from those that were read before it.
use crate::laying::{Laying, tag};
use crate::words::{basic_named, constancy_named, extent_named, proto_named, qual_named};
use shared_list::Listing;
use shared_text::Name;
use std::alloc::{AllocError, Global};
use type_data::{CType, Constancy, Fault, Judged, Node, ParamList, Params, Place, Qual};
use type_rel::{assignable, compatible, composite, promote, usual};

fn names_of(alloc: Global, words: &str) -> Result<Listing<Name>, AllocError> {
    let mut names = Vec::new(alloc);
    for word in words.split(',') {
        let name = Name::from_str(alloc, word)?;
        names.push(name)?;
    }
    Ok(Listing::from_vec(names))
}

fn made_of(alloc: Global, call: &str, first: &CType, second: &CType) -> Result<CType, AllocError> {
    if call == "composite" {
        return composite(alloc, first, second);
    }
    Ok(usual(first, second))
}

/// What was read.
#[derive(Drop)]
pub struct Notes {
    types: Vec<CType>,
    params: Vec<Params>,
    width: Option<u8>,
    constant: Constancy,
    laying: Laying,
}

impl Notes {
    pub fn new(alloc: Global) -> Notes {
        Notes {
            types: Vec::new(alloc),
            params: Vec::new(alloc),
            width: None,
            constant: Constancy::No,
            laying: Laying::new(alloc),
        }
    }

    fn read_tag(&mut self, alloc: Global, number: &str, is_enum: bool) -> Result<bool, AllocError> {
        let Ok(number) = number.parse::<u32>() else {
            return Ok(false);
        };
        let id = tag(alloc, number)?;
        let node = if is_enum {
            Node::Enumerated(id)
        } else {
            Node::Tagged(id)
        };
        self.types.push(CType::of(node))?;
        Ok(true)
    }

    fn read_array(&mut self, alloc: Global, of: CType, word: &str) -> Result<bool, AllocError> {
        let Some((quals, extent)) = word.split_once(':') else {
            drop(of);
            return Ok(false);
        };
        let Some(extent) = extent_named(extent) else {
            drop(of);
            return Ok(false);
        };
        let array = CType::array(alloc, of, qual_named(quals), extent)?;
        self.types.push(array)?;
        Ok(true)
    }

    fn read_param(&mut self, alloc: Global, ty: CType, qual: Qual) -> Result<bool, AllocError> {
        let Some(more) = self.params.pop() else {
            return Ok(false);
        };
        let params = Params::first(alloc, ty, qual, more)?;
        self.params.push(params)?;
        Ok(true)
    }

    fn read_function(&mut self, alloc: Global, of: CType, word: &str) -> Result<bool, AllocError> {
        let Some(params) = self.params.pop() else {
            drop(of);
            return Ok(false);
        };
        let Some(proto) = proto_named(word) else {
            drop(params);
            drop(of);
            return Ok(false);
        };
        let function = CType::function(alloc, of, params, proto)?;
        self.types.push(function)?;
        Ok(true)
    }

    // A word that takes a type.
    fn read_around(&mut self, alloc: Global, word: &str) -> Result<bool, AllocError> {
        let Some(part) = self.types.pop() else {
            return Ok(false);
        };
        if let Some(quals) = word.strip_prefix("ptr:") {
            let pointer = CType::pointer(alloc, part, qual_named(quals))?;
            self.types.push(pointer)?;
            return Ok(true);
        }
        if let Some(rest) = word.strip_prefix("arr:") {
            return self.read_array(alloc, part, rest);
        }
        if let Some(quals) = word.strip_prefix("param:") {
            return self.read_param(alloc, part, qual_named(quals));
        }
        if let Some(rest) = word.strip_prefix("member:") {
            return self.laying.member(part, rest);
        }
        match word.strip_prefix("fn:") {
            Some(rest) => self.read_function(alloc, part, rest),
            None => Ok(false),
        }
    }

    // A word that says what a call reads beside types.
    fn read_beside(&mut self, word: &str) -> bool {
        if let Some(width) = word.strip_prefix("width:") {
            self.width = match width.parse::<u8>() {
                Ok(width) => Some(width),
                Err(_) => None,
            };
            return true;
        }
        if let Some(constant) = word.strip_prefix("constant:") {
            self.constant = constancy_named(constant);
            return true;
        }
        false
    }

    /// Whether the word is one of the notation's.
    pub fn word(&mut self, alloc: Global, word: &str) -> Result<bool, AllocError> {
        if let Some(basic) = basic_named(word) {
            self.types.push(CType::of(Node::Basic(basic)))?;
            return Ok(true);
        }
        if word == "Void" {
            self.types.push(CType::of(Node::Void))?;
            return Ok(true);
        }
        if word == "Bad" {
            self.types.push(CType::of(Node::Bad))?;
            return Ok(true);
        }
        if word == "none" {
            self.params.push(Params::of(ParamList::Empty))?;
            return Ok(true);
        }
        if let Some(number) = word.strip_prefix("tag:") {
            return self.read_tag(alloc, number, false);
        }
        if let Some(number) = word.strip_prefix("enum:") {
            return self.read_tag(alloc, number, true);
        }
        if self.read_beside(word) || self.laying.word(alloc, word)? {
            return Ok(true);
        }
        self.read_around(alloc, word)
    }

    // The answer of a call on two types, or on one and the type of a value.
    fn of_two(&mut self, call: &str) -> Option<bool> {
        let second = self.types.pop()?;
        let Some(first) = self.types.pop() else {
            drop(second);
            return None;
        };
        if call == "compatible" {
            let yes = compatible(&first, &second);
            drop(first);
            drop(second);
            return Some(yes);
        }
        let from = Judged {
            ty: second,
            qual: qual_named(""),
            place: Place::Value,
            constant: self.constant,
        };
        let yes = assignable(&first, &from);
        drop(from);
        drop(first);
        Some(yes)
    }

    fn of_size(&mut self) -> Option<bool> {
        let ty = self.types.pop()?;
        Some(self.laying.is_size(&ty))
    }

    // Whether a call on two types answers a third.
    fn of_three(&mut self, alloc: Global, call: &str) -> Result<Option<bool>, AllocError> {
        let Some(wanted) = self.types.pop() else {
            return Ok(None);
        };
        let Some(second) = self.types.pop() else {
            drop(wanted);
            return Ok(None);
        };
        let Some(first) = self.types.pop() else {
            drop(second);
            drop(wanted);
            return Ok(None);
        };
        let made = made_of(alloc, call, &first, &second);
        drop(first);
        drop(second);
        let Ok(made) = made else {
            drop(wanted);
            return Err(AllocError);
        };
        let same = made == wanted;
        drop(made);
        drop(wanted);
        Ok(Some(same))
    }

    // Whether a type is promoted to another.
    fn of_promoted(&mut self) -> Option<bool> {
        let wanted = self.types.pop()?;
        let Some(first) = self.types.pop() else {
            drop(wanted);
            return None;
        };
        let made = promote(&first, self.width);
        drop(first);
        let same = made == wanted;
        drop(made);
        drop(wanted);
        Some(same)
    }

    /// The text of the last type that was read, round a name.
    pub fn printed(
        &mut self,
        alloc: Global,
        quals: &str,
        name: &str,
    ) -> Result<Option<String>, AllocError> {
        let Some(ty) = self.types.pop() else {
            return Ok(None);
        };
        let Ok(text) = self.laying.printed(alloc, &ty, qual_named(quals), name) else {
            drop(ty);
            return Err(AllocError);
        };
        drop(ty);
        Ok(Some(text))
    }

    /// The message of a rule with these names, which commas part, and all types that were read.
    pub fn message(&mut self, alloc: Global, rule: u16, names: &str) -> Result<Name, AllocError> {
        let types = std::mem::replace(&mut self.types, Vec::new(alloc));
        let fault = Fault {
            rule,
            at: 0,
            names: names_of(alloc, names)?,
            types: Listing::from_vec(types),
        };
        self.laying.message(alloc, &fault)
    }

    /// The answer of a call with what was read, or whether it answers the last type that was read.
    pub fn answer(&mut self, alloc: Global, call: &str) -> Result<Option<bool>, AllocError> {
        if call == "compatible" || call == "assignable" {
            return Ok(self.of_two(call));
        }
        if call == "composite" || call == "usual" {
            return self.of_three(alloc, call);
        }
        if call == "layout" {
            return Ok(Some(self.laying.is_layout(alloc)?));
        }
        if call == "size_align" {
            return Ok(self.of_size());
        }
        if call == "promote" {
            return Ok(self.of_promoted());
        }
        Ok(None)
    }
}
