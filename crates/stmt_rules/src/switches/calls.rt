// Entering and leaving a `switch`, and the labels within it (ISO C11 6.8.1p2, 6.8.4.2).
ghost use Rattle.std.specs.Prelude.{◌≡◌, [], IfOk, OnOk, OnErr};
ghost use Rattle.stmt_rules.specs.Switches as spec;

use super::{Entered, Switches, promoted_type};
use crate::faults::fault;
use std::alloc::{AllocError, Global};
use std::collections::BTreeSet;
use type_data::{Fault, Judged, Value};
use type_rel::integer_type;

fn outside(alloc: Global, at: u32, value: Value) -> Option<Fault>
    ensures { result ≡ spec.outside at value }
{
    match value {
        Value::Known(_) => Some(fault(alloc, 602, at)),
        Value::Unknown => Some(fault(alloc, 602, at)),
        Value::Faulty(_) => None,
    }
}

fn repeated(alloc: Global, at: u32, had: bool) -> Option<Fault>
    ensures { result ≡ spec.repeated at had }
{
    if had {
        Some(fault(alloc, 606, at))
    } else {
        None
    }
}

impl Switches {
    /// Within none. It takes no memory.
    pub fn new(alloc: Global) -> Switches
        ensures { result ≡ [] }
    {
        Switches {
            entered: Vec::new(alloc),
        }
    }

    /// Within a `switch` of this controlling expression. The values of its cases are converted to the promoted type of that
    /// (ISO C11 6.8.4.2p5); where it has no integer type, they aren't compared. Where memory is refused all is as before.
    pub fn enter(&mut self, alloc: Global, controlling: &Judged) -> Result<(), AllocError>
        ensures entered { OnOk result (self.new ≡ spec.entered controlling.now self.old) }
        ensures unchanged { OnErr result (self.new ≡ self.old) }
    {
        let entered = Entered {
            ty: integer_type(&promoted_type(controlling)),
            values: BTreeSet::new(alloc),
            defaulted: false,
        };
        self.entered.push(entered)?;
        Ok(())
    }

    /// The innermost one ends. It takes no memory.
    pub fn leave(&mut self)
        ensures { self.new ≡ spec.left self.old }
    {
        if let Some(entered) = self.entered.pop() {
            drop(entered);
        }
    }

    /// What a `case`, which is `at`, with this value breaks: 602 outside a `switch` (ISO C11 6.8.1p2), 606 where the innermost one has a
    /// `case` in front of it whose value is the same after the conversion (6.8.4.2p3). A value that isn't told is compared with none, and
    /// of one that is faulty nothing more is shown. Its cost grows with the logarithm of the number of cases. Where memory is refused all
    /// is as before.
    pub fn case_label(
        &mut self,
        alloc: Global,
        at: u32,
        value: Value,
    ) -> Result<Option<Fault>, AllocError>
        ensures fault { IfOk result (λ f. f ≡ spec.case_fault at value self.old) }
        ensures after { OnOk result (self.new ≡ spec.after_case value self.old) }
        ensures unchanged { OnErr result (self.new ≡ self.old) }
    {
        let Some(entered) = self.entered.last_mut() else {
            return Ok(outside(alloc, at, value));
        };
        let had = entered.note(value)?;
        Ok(repeated(alloc, at, had))
    }

    /// What a `default`, which is `at`, breaks: 602 outside a `switch` (ISO C11 6.8.1p2), 607 where the innermost one has a `default` in
    /// front of it (6.8.4.2p3). It takes no memory.
    pub fn default_label(&mut self, alloc: Global, at: u32) -> Option<Fault>
        ensures fault { result ≡ spec.default_fault at self.old }
        ensures after { self.new ≡ spec.after_default self.old }
    {
        let Some(entered) = self.entered.last_mut() else {
            return Some(fault(alloc, 602, at));
        };
        if entered.mark_default() {
            return Some(fault(alloc, 607, at));
        }
        None
    }
}
