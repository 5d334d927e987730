// Paths of files and folders.
ghost use Rattle.std.specs.Prelude.{◌≡◌, ◌≢◌, ℕ, List, All, map, nat_eq, IfOk};
ghost use Rattle.std.specs.Cmp;
ghost use Rattle.std.specs.Cmp.Lexicographic.{pointwise, slice_cmp, nat_list_eq_equiv, nat_list_cmp_total, texts_ties, texts_po};
ghost use Rattle.std.specs.Cmp.Rules.{hashing};
ghost use Rattle.std.specs.Hash as fed;
ghost use Rattle.std.specs.Ordering.{nat_cmp};
ghost use Rattle.std.specs.Prelude.{Some, refl};
ghost use Rattle.std.specs.String.{string_bytes};
ghost use Rattle.std.proofs.Common.{rules};
ghost use Rattle.uri_paths.specs.Paths.{is_path, path_read, IsPath, spelled, path_of_names};
ghost use Rattle.uri_paths.specs.Named.{IsComponent};

use crate::parts::are_names;
use shared_text::Name;
use std::alloc::{AllocError, Global};
use std::cmp::Ordering;
use std::hash::{Hash, Hasher};
use std::marker::Model;

/// An absolute path: `/`, or a text that begins with `/` and has no empty, `.` or `..` component behind it. Contracts see it as
/// its text. Paths are ordered by their bytes.
#[derive(Debug, Drop)]
pub struct Path {
    text: Name,
}

impl Model for Path {
    ghost use Rattle.std.specs.Prelude.{ℕ, List};
    ghost use Rattle.uri_paths.specs.Paths.{IsPath};

    ghost Value = { List ℕ };

    ghost view = { λ path. path.text };

    ghost invariant = { λ path. IsPath path.text };
}

impl Path {
    /// The path with this text, or None exactly where the text is no path.
    pub fn read(alloc: Global, text: &str) -> Result<Option<Path>, AllocError>
        ensures { IfOk result (λ path. path ≡ path_read text.now) }
    {
        if !is_path(text) {
            return Ok(None);
        }
        let text = Name::from_str(alloc, text)?;
        Ok(Some(Path { text }))
    }

    /// The path's text.
    pub fn as_str(&self) -> &str
        ensures text { result.now ≡ self.now }
        ensures path { IsPath self.now }
    {
        self.text.as_str()
    }

    /// The same path. It takes no memory but may be refused where the path is shared 2^64 times.
    pub fn share(&self) -> Result<Path, AllocError>
        ensures { IfOk result (λ copy. copy ≡ self.now) }
    {
        let text = self.text.share()?;
        Ok(Path { text })
    }

    /// The path with these components.
    pub(crate) fn from_names(alloc: Global, names: &[&str]) -> Result<Path, AllocError>
        requires { All IsComponent (map (λ name. name.now) names.now) }
        ensures { IfOk result (λ path. path ≡ path_of_names (map (λ name. name.now) names.now)) }
    {
        if names.is_empty() {
            let text = Name::from_str(alloc, "/")?;
            return Ok(Path { text });
        }
        let spelled = spelled(alloc, names)?;
        let text = Name::from_str(alloc, spelled.as_str())?;
        Ok(Path { text })
    }
}

/// Whether a text is that of a path.
#[tactic(auto, unfolding(crate::specs::Paths::is_path))]
fn is_path(text: &str) -> bool
    ensures { result ≡ is_path text.now }
{
    if text == "/" {
        return true;
    }
    match text.strip_prefix('/') {
        Some(behind) => are_names(behind),
        None => false,
    }
}

/// A slash and each name behind it.
fn spelled(alloc: Global, names: &[&str]) -> Result<String, AllocError>
    ensures { IfOk result (λ text. string_bytes text ≡ spelled (map (λ name. name.now) names.now)) }
{
    let mut text = String::new(alloc);
    for name in names {
        text.push('/')?;
        text.push_str(name)?;
    }
    Ok(text)
}

impl PartialEq for Path {
    ghost eq = { pointwise nat_eq };

    ghost laws = { Cmp.partial_equiv_from_equiv nat_list_eq_equiv };

    fn eq(&self, other: &Self) -> bool {
        self.text.eq(&other.text)
    }
}

impl Eq for Path {
    ghost laws = { nat_list_eq_equiv };
}

impl PartialOrd for Path {
    ghost partial_cmp = { λ x y. Some (slice_cmp nat_cmp x y) };

    ghost laws = { texts_po };

    fn partial_cmp(&self, other: &Self) -> Option<Ordering> {
        self.text.partial_cmp(&other.text)
    }
}

impl Ord for Path {
    ghost cmp = { slice_cmp nat_cmp };

    ghost total = { nat_list_cmp_total };

    ghost matches_partial_cmp = { λ x y. refl };

    ghost matches_eq = { texts_ties };

    fn cmp(&self, other: &Self) -> Ordering {
        self.text.cmp(&other.text)
    }
}

impl Hash for Path {
    ghost hash_input = { fed.str };

    ghost respects_eq = { Prim.search (hashing, rules) };

    fn hash<H: Hasher>(&self, state: &mut H) {
        self.text.hash(state)
    }
}
