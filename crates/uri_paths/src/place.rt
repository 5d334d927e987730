// Paths beside, within and under other paths.
ghost use Rattle.std.specs.Prelude.{◌≡◌, ◌≢◌, ◌⊎◌, ◌++◌, ℕ, List, ◌∷◌, [], codes, true, map, option_map, IfOk, None, All, if◌then◌else◌};
ghost use Rattle.uri_paths.specs.Named.{IsComponent};
ghost use Rattle.uri_paths.specs.Parts.{slash, parts};
ghost use Rattle.uri_paths.specs.Paths.{IsPath, under, within, beside, is_absolute, walk, resolved};

use crate::parts::{components, split_part};
use crate::path::Path;
use std::alloc::{AllocError, Global};

/// Whether a path is a root or lies under it. Each path is under itself and under `/`.
pub fn under(root: &Path, path: &Path) -> bool
    ensures { result ≡ under root.now path.now }
{
    if root.as_str() == "/" {
        return true;
    }
    match path
        .as_str()
        .as_bytes()
        .strip_prefix(root.as_str().as_bytes())
    {
        Some([]) => true,
        Some([next, ..]) => *next == b'/',
        None => false,
    }
}

/// A law of the definitions, which has nothing to run: each path is under `/` and under itself, and otherwise just what goes on
/// behind the root with a slash is under it.
pub fn roots_hold()
    ensures all { (path : List ℕ) → under (codes "/") path ≡ true }
    ensures itself { (path : List ℕ) → under path path ≡ true }
    ensures below { (root behind : List ℕ) → under root (root ++ slash ∷ behind) ≡ true }
    ensures only { (root path : List ℕ) → IsPath root → IsPath path → root ≢ codes "/" → under root path ≡ true → (path ≡ root) ⊎ ((behind : List ℕ) × (path ≡ root ++ slash ∷ behind)) }
{}

/// The path that a name means in a folder, or from `/` where it begins with `/`: empty and `.` components are dropped, and
/// each `..` takes one away. None exactly where a `..` goes above `/`.
pub fn within(alloc: Global, folder: &Path, name: &str) -> Result<Option<Path>, AllocError>
    ensures { IfOk result (λ path. path ≡ within folder.now name.now) }
{
    let folder = components(alloc, folder.as_str())?;
    resolved(alloc, folder, name)
}

/// The path that a name means in the folder that a path lies in, as `within` has it.
pub fn beside(alloc: Global, path: &Path, name: &str) -> Result<Option<Path>, AllocError>
    ensures { IfOk result (λ found. found ≡ beside path.now name.now) }
{
    let mut folder = components(alloc, path.as_str())?;
    folder.pop();
    resolved(alloc, folder, name)
}

/// The path that a name means in the folder with these components.
#[tactic(auto, unfolding(crate::specs::Paths::resolved))]
fn resolved(alloc: Global, folder: Vec<&str>, name: &str) -> Result<Option<Path>, AllocError>
    requires { All IsComponent (map (λ name. name.now) folder.items) }
    ensures { IfOk result (λ path. path ≡ resolved (map (λ name. name.now) folder.entry.items) name.now) }
{
    let Some(names) = walk(start_of(alloc, folder, name), name)? else {
        return Ok(None);
    };
    Ok(Some(Path::from_names(alloc, &names)?))
}

/// The components of the folder where a name begins: none, which is `/`, where it begins with `/`.
fn start_of<'a>(alloc: Global, folder: Vec<&'a str>, name: &str) -> Vec<&'a str>
    ensures { map (λ name. name.now) result.items ≡ (if is_absolute name.now then [] else map (λ name. name.now) folder.entry.items) }
{
    if name.starts_with('/') {
        return Vec::new(alloc);
    }
    folder
}

/// Where a name's parts lead from a folder, or None where a `..` goes above `/`.
fn walk<'a>(folder: Vec<&'a str>, name: &'a str) -> Result<Option<Vec<&'a str>>, AllocError>
    ensures { IfOk result (λ found. option_map (λ names. map (λ name. name.now) names.items) found ≡ walk (map (λ name. name.now) folder.entry.items) (parts name.now)) }
{
    let mut folder = folder;
    let mut rest = name;
    loop {
        let (part, more) = split_part(rest);
        if !enter(&mut folder, part)? {
            return Ok(None);
        }
        let Some(behind) = more else {
            return Ok(Some(folder));
        };
        rest = behind;
    }
}

/// Goes where one part leads, or answers false where it leads above `/`.
fn enter<'a>(folder: &mut Vec<&'a str>, part: &'a str) -> Result<bool, AllocError>
    ensures { IfOk result (λ goes. (rest : List (List ℕ)) → walk (map (λ name. name.now) folder.old.items) (part.now ∷ rest) ≡ (if goes then walk (map (λ name. name.now) folder.new.items) rest else None)) }
{
    if part.is_empty() || part == "." {
        return Ok(true);
    }
    if part == ".." {
        return Ok(folder.pop().is_some());
    }
    folder.push(part)?;
    Ok(true)
}
