// The script, message by message.
ghost use Rattle.std.specs.Prelude.{◌≡◌, ◌≤◌, ◌<◌, [], ◌∷◌, ◌++◌, ◌+◌, ◌*◌, length, map as list_map, string_bytes, IfOk, OnOk};
ghost use Rattle.serde_json.specs.Written.{compact_text};
ghost use Rattle.gen_project.specs.Script as spec;

use crate::messages;
use crate::texts::{header, unit, unit_uri};
use std::alloc::{AllocError, Global};

fn opened(alloc: Global, number: u32, k: u32) -> Result<String, AllocError>
    requires { k < number }
    ensures { IfOk result (λ text. string_bytes text ≡ compact_text (spec.opened number k)) }
{
    let uri = unit_uri(alloc, k)?;
    let added = format!(in alloc; "{k}")?;
    let text = unit(alloc, number, k, added.as_str())?;
    messages::did_open(alloc, uri.as_str(), text.as_str())
}

fn changed(alloc: Global, number: u32, k: u32) -> Result<String, AllocError>
    requires { k < number }
    ensures { IfOk result (λ text. string_bytes text ≡ compact_text (spec.changed number k)) }
{
    let uri = unit_uri(alloc, k)?;
    let text = unit(alloc, number, k, "y")?;
    messages::did_change(alloc, uri.as_str(), text.as_str())
}

fn open_units(alloc: Global, contents: &mut Vec<String>, number: u32) -> Result<(), AllocError>
    ensures { OnOk result (list_map string_bytes contents.new.items ≡ list_map string_bytes contents.old.items ++ list_map compact_text (list_map (spec.opened number) (spec.numbers number))) }
{
    let mut k = 0;
    'units: while k < number {
        let content = opened(alloc, number, k)?;
        contents.push(content)?;
        k += 1;
    }
    Ok(())
}

fn change_units(alloc: Global, contents: &mut Vec<String>, number: u32) -> Result<(), AllocError>
    ensures { OnOk result (list_map string_bytes contents.new.items ≡ list_map string_bytes contents.old.items ++ list_map compact_text (list_map (spec.changed number) (spec.numbers number))) }
{
    let mut k = 0;
    'units: while k < number {
        let content = changed(alloc, number, k)?;
        contents.push(content)?;
        k += 1;
    }
    Ok(())
}

fn open_header(alloc: Global, contents: &mut Vec<String>, number: u32) -> Result<(), AllocError>
    ensures { OnOk result (list_map string_bytes contents.new.items ≡ list_map string_bytes contents.old.items ++ compact_text (spec.opened_header number) ∷ []) }
{
    let text = header(alloc, number)?;
    let content = messages::did_open(alloc, "file:///g/h.h", text.as_str())?;
    contents.push(content)?;
    Ok(())
}

fn begin(alloc: Global, contents: &mut Vec<String>) -> Result<(), AllocError>
    ensures { OnOk result (list_map string_bytes contents.new.items ≡ list_map string_bytes contents.old.items ++ list_map compact_text spec.beginning) }
{
    let content = messages::initialize(alloc)?;
    contents.push(content)?;
    let content = messages::initialized(alloc)?;
    contents.push(content)?;
    Ok(())
}

fn end(alloc: Global, contents: &mut Vec<String>) -> Result<(), AllocError>
    ensures { OnOk result (list_map string_bytes contents.new.items ≡ list_map string_bytes contents.old.items ++ list_map compact_text spec.ending) }
{
    let content = messages::shutdown(alloc)?;
    contents.push(content)?;
    let content = messages::exit(alloc)?;
    contents.push(content)?;
    Ok(())
}

/// The contents of a session that anyone can time without an editor (JSON-RPC 2.0, LSP 3.17), in the order in which they are
/// sent. `number` is from 1 to 512.
///
/// After `initialize` and `initialized` come `didOpen` of `/g/h.h`, which declares `number` functions, and of each unit
/// `/g/uK.c`, whose function calls the next unit's and adds K; then a `didChange` of each unit, which puts an undeclared `y` in
/// the place of that K; then `shutdown` and `exit`. All texts together have a size linear in `number`, as has the time. It
/// fails for want of memory alone.
pub fn generate(alloc: Global, number: u32) -> Result<Vec<String>, AllocError>
    requires { 1 ≤ number × number ≤ 512 }
    ensures contents { IfOk result (λ contents. list_map string_bytes contents.items ≡ spec.contents number) }
    ensures count { IfOk result (λ contents. length contents.items ≡ 2 * number + 5) }
{
    let mut contents = Vec::new(alloc);
    begin(alloc, &mut contents)?;
    open_header(alloc, &mut contents, number)?;
    open_units(alloc, &mut contents, number)?;
    change_units(alloc, &mut contents, number)?;
    end(alloc, &mut contents)?;
    Ok(contents)
}
