// Long switches, for their cost.
use crate::operands::part_named;
use std::alloc::{AllocError, Global};
use stmt_rules::Switches;
use type_data::{Fault, Value};

fn add(
    alloc: Global,
    switches: &mut Switches,
    faults: &mut Vec<Fault>,
    at: u32,
    number: u32,
) -> Result<(), AllocError> {
    let value = Value::Known(i128::from(number));
    let fault = switches.case_label(alloc, at, value)?;
    if let Some(fault) = fault {
        faults.push(fault)?;
    }
    Ok(())
}

fn add_all(
    alloc: Global,
    switches: &mut Switches,
    faults: &mut Vec<Fault>,
    count: u32,
) -> Result<(), AllocError> {
    let judged = part_named(alloc, "u")?;
    let entered = switches.enter(alloc, &judged);
    drop(judged);
    entered?;
    for number in 0..count {
        add(alloc, switches, faults, number, number)?;
    }
    add(alloc, switches, faults, count, count.wrapping_sub(1))
}

/// The faults of a `switch` with so many cases, each with a value of its own, and one more, with the value of the last of them.
pub fn long_switch(alloc: Global, count: u32, faults: &mut Vec<Fault>) -> Result<(), AllocError> {
    let mut switches = Switches::new(alloc);
    add_all(alloc, &mut switches, faults, count)
}
