// The labels of one `switch` (ISO C11 6.8.4.2p3, p5).
ghost use Rattle.std.specs.Prelude.{◌≡◌, Some, IfOk, OnOk, OnErr};
ghost use Rattle.stmt_rules.specs.Switches as spec;

use super::Entered;
use c_literals::convert;
use std::alloc::AllocError;
use type_data::{IntTy, Value};

#[tactic(auto, unfolding(crate::specs::Switches::brought))]
fn brought(ty: IntTy, value: Value) -> Value
    ensures { result ≡ spec.brought ty value }
{
    convert(ty, value)
}

fn number(value: Value) -> Option<i128>
    ensures { result ≡ spec.number value }
{
    match value {
        Value::Known(number) => Some(number),
        Value::Unknown => None,
        Value::Faulty(_) => None,
    }
}

fn compared(ty: Option<IntTy>, value: Value) -> Option<i128>
    ensures { result ≡ spec.compared ty value }
{
    match ty {
        Some(ty) => number(brought(ty, value)),
        None => None,
    }
}

impl Entered {
    // Notes the value of a `case`; whether the switch had it.
    fn put(&mut self, number: i128) -> Result<bool, AllocError>
        ensures had { IfOk result (λ b. b ≡ spec.has self.old.values (Some number)) }
        ensures noted { OnOk result (self.new ≡ spec.noted (Some number) self.old) }
        ensures unchanged { OnErr result (self.new ≡ self.old) }
    {
        let added = self.values.insert(number)?;
        Ok(!added)
    }

    pub(super) fn note(&mut self, value: Value) -> Result<bool, AllocError>
        ensures had { IfOk result (λ b. b ≡ spec.has self.old.values (spec.compared self.old.ty value)) }
        ensures noted { OnOk result (self.new ≡ spec.noted (spec.compared self.old.ty value) self.old) }
        ensures unchanged { OnErr result (self.new ≡ self.old) }
    {
        match compared(self.ty, value) {
            Some(number) => self.put(number),
            None => Ok(false),
        }
    }

    // Notes a `default`; whether the switch had one.
    pub(super) fn mark_default(&mut self) -> bool
        ensures had { result ≡ self.old.defaulted }
        ensures noted { self.new ≡ spec.with_default self.old }
    {
        let had = self.defaulted;
        self.defaulted = true;
        had
    }
}
