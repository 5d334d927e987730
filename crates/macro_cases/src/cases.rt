// Cases: a line `budget` with the number of replacements that may be made, where a line `room` stands no more than so
// many tokens that are wanted, `#define` lines, and a text of one line. The definitions stand in texts `/m0.h`, `/m1.h` and so on, the text in `/t.c`, and every site is on line 1, but after
// `no lines`, where no line is known.
use crate::reading::{definition, tokens_of};
use crate::shown::{shown, shown_answer, shown_def};
use macro_expand::{Within, expand, expand_within};
use macro_table::{Defined, MacroTable};
use std::alloc::{AllocError, Global};
use tok_data::{OutToken, TokId};

/// A case, as far as it is read.
#[derive(Drop)]
pub struct Case {
    table: MacroTable,
    defined: u32,
    budget: u32,
    room: Option<usize>,
    lines_known: bool,
}

fn push_line(out: &mut Vec<(TokId, u32)>, token: &OutToken) -> Result<(), AllocError> {
    let site = token.site.copy()?;
    out.push((site, 1))?;
    Ok(())
}

fn lines_of(alloc: Global, tokens: &[OutToken]) -> Result<Vec<(TokId, u32)>, AllocError> {
    let mut out = Vec::new(alloc);
    for token in tokens {
        push_line(&mut out, token)?;
    }
    Ok(out)
}

/// What defining the macro of a line answers; none where the line has no name.
pub fn defines(
    alloc: Global,
    table: &mut MacroTable,
    file: &str,
    line: &str,
) -> Result<Option<Defined>, AllocError> {
    match definition(alloc, file, line)? {
        Some(def) => {
            let answer = table.define(def)?;
            Ok(Some(answer))
        }
        None => Ok(None),
    }
}

impl Case {
    pub fn begun(alloc: Global, budget: &str) -> Case {
        Case {
            table: MacroTable::new(alloc),
            defined: 0,
            budget: budget.parse::<u32>().unwrap_or(0),
            room: None,
            lines_known: true,
        }
    }

    pub fn without_lines(&mut self) {
        self.lines_known = false;
    }

    pub fn limit(&mut self, room: &str) {
        self.room = Some(room.parse::<usize>().unwrap_or(0));
    }

    /// A `#define` line, and what it answers.
    pub fn define(&mut self, alloc: Global, line: &str) -> Result<Option<Defined>, AllocError> {
        let number = self.defined;
        self.defined = number.saturating_add(1);
        let file = format!(in alloc; "/m{number}.h")?;
        defines(alloc, &mut self.table, file.as_str(), line)
    }

    /// The same, with the answer shown.
    pub fn answer(&mut self, alloc: Global, line: &str) -> Result<String, AllocError> {
        let answer = self.define(alloc, line)?;
        shown_answer(alloc, &answer)
    }

    /// Removes a name's definition, and says whether it had one.
    pub fn undef(&mut self, name: &str) -> &'static str {
        if self.table.undef(name) {
            "removed\n"
        } else {
            "no macro\n"
        }
    }

    /// A name's definition.
    pub fn look(&self, alloc: Global, name: &str) -> Result<String, AllocError> {
        match self.table.get(name) {
            Some(def) => shown_def(alloc, def),
            None => String::from_str(alloc, "no macro\n"),
        }
    }

    /// What the text expands to.
    pub fn expansion(&self, alloc: Global, text: &str) -> Result<String, AllocError> {
        let tokens = tokens_of(alloc, "/t.c", text)?;
        let within = self.within(alloc, tokens.as_slice())?;
        shown(alloc, &within)
    }

    fn within(&self, alloc: Global, tokens: &[OutToken]) -> Result<Within, AllocError> {
        if !self.lines_known {
            return self.on_lines(alloc, tokens, &[]);
        }
        let lines = lines_of(alloc, tokens)?;
        self.on_lines(alloc, tokens, lines.as_slice())
    }

    fn on_lines(
        &self,
        alloc: Global,
        tokens: &[OutToken],
        lines: &[(TokId, u32)],
    ) -> Result<Within, AllocError> {
        if let Some(room) = self.room {
            return expand_within(alloc, tokens, &self.table, lines, self.budget, room);
        }
        let expanded = expand(alloc, tokens, &self.table, lines, self.budget)?;
        Ok(Within {
            expanded,
            left_out: None,
        })
    }
}
