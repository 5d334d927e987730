// Alignment specifiers (ISO C11 6.7.5).
ghost use Rattle.std.specs.Prelude.{◌≡◌};
ghost use Rattle.head_rules.specs.Alignments as spec;

use crate::faults::plain;
use std::alloc::Global;
use type_data::{CType, Fault, Tags, Value};
use type_rel::{is_bad, is_complete, size_align};

/// What the alignment specifiers of one list state together.
#[derive(Clone, Copy, Debug, Drop)]
pub struct Alignment {
    /// The strictest that is known, where one is stated; 0 has no effect.
    pub value: Option<Value>,
    /// The number of the first one's token.
    pub at: Option<u32>,
    /// One of them has a fault, which was told.
    pub faulty: bool,
}

fn first(at: Option<u32>, number: u32) -> u32
    ensures { result ≡ spec.first at number }
{
    match at {
        Some(first) => first,
        None => number,
    }
}

fn greater(a: i128, b: i128) -> i128
    ensures { result ≡ spec.greater a b }
{
    if a < b { b } else { a }
}

fn stricter_than(a: i128, value: Value) -> Value
    ensures { result ≡ spec.stricter_than a value }
{
    match value {
        Value::Known(b) => Value::Known(greater(a, b)),
        Value::Unknown => Value::Known(a),
        Value::Faulty(_) => Value::Known(a),
    }
}

fn stricter(before: Option<Value>, value: Value) -> Value
    ensures { result ≡ spec.stricter before value }
{
    match before {
        None => value,
        Some(Value::Known(a)) => stricter_than(a, value),
        Some(Value::Unknown) => value,
        Some(Value::Faulty(_)) => value,
    }
}

fn is_number(number: i128) -> bool
    ensures { result ≡ spec.is_number number }
{
    if number < 0 {
        return false;
    }
    let number = number as u128;
    number == 0 || number.is_power_of_two()
}

fn is_alignment(value: Value) -> bool
    ensures { result ≡ spec.is_alignment value }
{
    match value {
        Value::Known(number) => is_number(number),
        Value::Unknown => true,
        Value::Faulty(_) => true,
    }
}

impl Alignment {
    /// Nothing is stated.
    pub fn none() -> Alignment
        ensures { result ≡ spec.unaligned }
    {
        Alignment {
            value: None,
            at: None,
            faulty: false,
        }
    }

    fn failing(self, at: u32) -> Alignment
        ensures { result ≡ spec.failing at self }
    {
        Alignment {
            value: self.value,
            at: Some(first(self.at, at)),
            faulty: true,
        }
    }

    fn stated(self, at: u32, value: Value) -> Alignment
        ensures { result ≡ spec.stated at value self }
    {
        Alignment {
            value: Some(stricter(self.value, value)),
            at: Some(first(self.at, at)),
            faulty: self.faulty,
        }
    }

    fn refused(self, alloc: Global, at: u32) -> (Alignment, Option<Fault>)
        ensures { result ≡ spec.refused at self }
    {
        let failing = self.failing(at);
        if self.faulty {
            return (failing, None);
        }
        (failing, Some(plain(alloc, 417, first(self.at, at))))
    }

    fn with_value(self, alloc: Global, at: u32, value: Value) -> (Alignment, Option<Fault>)
        ensures { result ≡ spec.by_value at value self }
    {
        if is_alignment(value) {
            return (self.stated(at, value), None);
        }
        self.refused(alloc, at)
    }

    /// With `_Alignas ( constant-expression )`, whose keyword has the number `at`: the alignment that is the expression's value (ISO C11
    /// 6.7.5p6); none where the expression has a fault, which was told. Its fault is 417, on the first specifier of the list, where
    /// the value is neither 0 nor a power of two (p3); once for a list.
    pub fn with_expression(
        self,
        alloc: Global,
        at: u32,
        value: Option<Value>,
    ) -> (Alignment, Option<Fault>)
        ensures { result ≡ spec.by_expression at value self }
    {
        match value {
            Some(value) => self.with_value(alloc, at, value),
            None => (self.failing(at), None),
        }
    }

    fn with_size(
        self,
        alloc: Global,
        at: u32,
        complete: bool,
        own: Option<(u64, u64)>,
    ) -> (Alignment, Option<Fault>)
        ensures { result ≡ spec.by_size at complete own self }
    {
        match own {
            Some((_, align)) => self.with_value(alloc, at, Value::Known(i128::from(align))),
            None => {
                if complete {
                    return self.with_value(alloc, at, Value::Unknown);
                }
                self.refused(alloc, at)
            }
        }
    }

    /// With `_Alignas ( type-name )`: the alignment of the type (ISO C11 6.7.5p5), which isn't known where its size isn't. Its
    /// fault is 417 where the type is no complete object type (6.5.3.4p1).
    pub fn with_type(
        self,
        alloc: Global,
        at: u32,
        tags: &Tags,
        ty: &CType,
    ) -> (Alignment, Option<Fault>)
        ensures { result ≡ spec.by_type at tags.now ty.now self }
    {
        if is_bad(ty) {
            return (self.failing(at), None);
        }
        self.with_size(alloc, at, is_complete(tags, ty), size_align(ty, tags))
    }
}
