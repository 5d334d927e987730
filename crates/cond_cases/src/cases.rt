// Cases: a line `budget` with the number of replacements that may be made, `#define` lines, and conditions behind `#if`.
// The definitions stand in texts `/m0.h`, `/m1.h` and so on, a condition's text in `/t.c`, and every site is on line 1,
// but after `no lines`, where no line is known.
use crate::reading::{definition, tokens_of};
use crate::shown::shown;
use macro_table::MacroTable;
use pp_cond::condition;
use std::alloc::{AllocError, Global};
use tok_data::{OutToken, TokId};

/// A case, as far as it is read.
#[derive(Drop)]
pub struct Case {
    table: MacroTable,
    defined: u32,
    budget: u32,
    lines_known: bool,
}

fn lines_of(alloc: Global, tokens: &[OutToken]) -> Result<Vec<(TokId, u32)>, AllocError> {
    let mut out = Vec::new(alloc);
    for token in tokens {
        out.push((token.site.copy()?, 1))?;
    }
    Ok(out)
}

impl Case {
    pub fn begun(alloc: Global, budget: &str) -> Case {
        Case {
            table: MacroTable::new(alloc),
            defined: 0,
            budget: budget.parse::<u32>().unwrap_or(0),
            lines_known: true,
        }
    }

    pub fn without_lines(&mut self) {
        self.lines_known = false;
    }

    /// A `#define` line.
    pub fn define(&mut self, alloc: Global, line: &str) -> Result<(), AllocError> {
        let number = self.defined;
        let file = format!(in alloc; "/m{number}.h")?;
        if let Some(def) = definition(alloc, file.as_str(), line)? {
            self.table.define(def)?;
        }
        self.defined = self.defined.saturating_add(1);
        Ok(())
    }

    /// What the condition says.
    pub fn said(&self, alloc: Global, text: &str) -> Result<String, AllocError> {
        let tokens = tokens_of(alloc, "/t.c", text)?;
        let lines = if self.lines_known {
            lines_of(alloc, tokens.as_slice())?
        } else {
            Vec::new(alloc)
        };
        let cond = condition(
            alloc,
            tokens.as_slice(),
            &self.table,
            lines.as_slice(),
            self.budget,
        )?;
        shown(alloc, &cond)
    }
}
