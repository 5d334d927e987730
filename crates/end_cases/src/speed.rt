// Long units, for their cost.
use crate::items::Items;
use std::alloc::{AllocError, Global};
use unit_ends::end_faults;

fn add(alloc: Global, items: &mut Items, number: u32) -> Result<(), AllocError> {
    let declaration = format!(in alloc; "declares f{number} internal function")?;
    items.read(alloc, declaration.as_str())?;
    let user = format!(in alloc; "defines g{number} external function, body f{number}")?;
    items.read(alloc, user.as_str())?;
    let array = format!(in alloc; "tentative a{number} internal array, completes {number}")?;
    items.read(alloc, array.as_str())?;
    Ok(())
}

/// How many faults a unit has that declares so many functions, each of which another one uses, and as many arrays of no size.
pub fn play(alloc: Global, count: u32) -> Result<usize, AllocError> {
    let mut items = Items::new(alloc);
    for number in 0..count {
        add(alloc, &mut items, number)?;
    }
    let faults = end_faults(alloc, items.heads.as_slice(), items.bodies.as_slice())?;
    Ok(faults.len())
}
