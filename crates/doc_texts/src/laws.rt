// What changes of the texts leave, as laws of the definitions.
ghost use Rattle.std.specs.Prelude.{◌≡◌, ◌≢◌, ℕ, ℤ, List, Option, Some, None, option_map, is_some, bytes_eq, IfOk, IfSome};
ghost use Rattle.std.specs.Cmp.Lexicographic.{slice_cmp};
ghost use Rattle.std.specs.FinMap.{get};
ghost use Rattle.std.specs.List.{list_any, AllByRecursion};
ghost use Rattle.std.specs.List.Sorted.{IsStrictlySortedBy};
ghost use Rattle.std.specs.Ordering.{nat_cmp};
ghost use Rattle.text_lines.specs.declared.edit.Change.{Change as TextChange};
ghost use Rattle.text_lines.specs.declared.encoding.Encoding.{Encoding as TextEncoding};
ghost use Rattle.doc_texts.specs.Docs.{loaded, opened, changed, closed};
ghost use Rattle.doc_texts.specs.Edited.{renamed, edited, AreApart};
ghost use Rattle.doc_texts.specs.declared.ranges.TextEdits.{TextEdits};
ghost use Rattle.doc_texts.specs.Short.{AllShort, IsShort};
ghost use Rattle.doc_texts.specs.Texts.{texts_under, Texts, OpenText, shown, text_at, version_at, uri_at, path_set, paths_of, with_disk, without_disk, with_open, without_open};

/// A law of the definitions, which has nothing to run: what the text at a path is after each change, at its path and at others.
pub fn texts_follow()
    ensures disk { (t : Texts) (p x : List ℕ) → text_at (with_disk t p x) p ≡ shown (get t.opened p) (Some x) }
    ensures disk_others { (t : Texts) (p x q : List ℕ) → q ≢ p → text_at (with_disk t p x) q ≡ text_at t q }
    ensures gone { (t : Texts) (p : List ℕ) → text_at (without_disk t p) p ≡ shown (get t.opened p) None }
    ensures gone_others { (t : Texts) (p q : List ℕ) → q ≢ p → text_at (without_disk t p) q ≡ text_at t q }
    ensures opened { (t : Texts) (p : List ℕ) (d : OpenText) → text_at (with_open t p d) p ≡ Some d.text }
    ensures opened_others { (t : Texts) (p : List ℕ) (d : OpenText) (q : List ℕ) → q ≢ p → text_at (with_open t p d) q ≡ text_at t q }
    ensures shut { (t : Texts) (p : List ℕ) → text_at (without_open t p) p ≡ get t.disk p }
    ensures shut_others { (t : Texts) (p q : List ℕ) → q ≢ p → text_at (without_open t p) q ≡ text_at t q }
{}

/// A law of the definitions, which has nothing to run: what the version and the URI of an open document are after it is opened or
/// changed, and after it is closed, at its path and at others.
pub fn documents_follow()
    ensures version { (t : Texts) (p : List ℕ) (d : OpenText) → version_at (with_open t p d) p ≡ Some d.version }
    ensures version_others { (t : Texts) (p : List ℕ) (d : OpenText) (q : List ℕ) → q ≢ p → version_at (with_open t p d) q ≡ version_at t q }
    ensures version_shut { (t : Texts) (p : List ℕ) → version_at (without_open t p) p ≡ None }
    ensures version_shut_others { (t : Texts) (p q : List ℕ) → q ≢ p → version_at (without_open t p) q ≡ version_at t q }
    ensures uri { (t : Texts) (p : List ℕ) (d : OpenText) → uri_at (with_open t p d) p ≡ Some d.uri }
    ensures uri_others { (t : Texts) (p : List ℕ) (d : OpenText) (q : List ℕ) → q ≢ p → uri_at (with_open t p d) q ≡ uri_at t q }
    ensures uri_shut { (t : Texts) (p : List ℕ) → uri_at (without_open t p) p ≡ None }
    ensures uri_shut_others { (t : Texts) (p q : List ℕ) → q ≢ p → uri_at (without_open t p) q ≡ uri_at t q }
{}

/// A law of the definitions, which has nothing to run: a set of paths has those that it was made of, the paths of the texts are
/// those that have a text, and both ascend strictly.
pub fn paths_are_sets()
    ensures set_members { (paths : List (List ℕ)) (q : List ℕ) → list_any (bytes_eq q) (path_set paths) ≡ list_any (bytes_eq q) paths }
    ensures set_ascends { (paths : List (List ℕ)) → IsStrictlySortedBy (slice_cmp nat_cmp) (path_set paths) }
    ensures members { (t : Texts) (q : List ℕ) → list_any (bytes_eq q) (paths_of t) ≡ is_some (text_at t q) }
    ensures ascends { (t : Texts) → IsStrictlySortedBy (slice_cmp nat_cmp) (paths_of t) }
{}

/// A law of the definitions, which has nothing to run: what edits leave at each path. A text whose path has edits is the one that
/// stood there with its ranges replaced, all others are what they were, the same paths have a text, and the same documents are
/// open, with their versions and URIs.
pub fn edits_follow()
    ensures made { (t : Texts) (edits : List TextEdits) (name : List ℕ) → AreApart edits → AllByRecursion (λ e. text_at (edited t edits name) e.path ≡ option_map (renamed name e.ranges.items) (text_at t e.path)) edits }
    ensures others { (t : Texts) (edits : List TextEdits) (name q : List ℕ) → AllByRecursion (λ e. q ≢ e.path) edits → text_at (edited t edits name) q ≡ text_at t q }
    ensures held { (t : Texts) (edits : List TextEdits) (name q : List ℕ) → is_some (text_at (edited t edits name) q) ≡ is_some (text_at t q) }
    ensures version { (t : Texts) (edits : List TextEdits) (name q : List ℕ) → version_at (edited t edits name) q ≡ version_at t q }
    ensures uri { (t : Texts) (edits : List TextEdits) (name q : List ℕ) → uri_at (edited t edits name) q ≡ uri_at t q }
{}

/// A law of the definitions, which has nothing to run: no call takes a text in that is longer than the limit, so where none is, none
/// ever is, and no text that stands at a path is.
pub fn texts_stay_short()
    ensures under { (root : Option (List ℕ)) → AllShort (texts_under root) }
    ensures loaded { (t : Texts) → AllShort t → (p : List ℕ) (bytes : Option (List ℕ)) → IfOk (loaded t p bytes) AllShort }
    ensures opened { (t : Texts) → AllShort t → (p uri : List ℕ) (version : ℤ) (text : List ℕ) → IfOk (opened t p uri version text) AllShort }
    ensures changed { (t : Texts) → AllShort t → (p : List ℕ) (version : ℤ) (changes : List TextChange) (enc : TextEncoding) → IfOk (changed t p version changes enc) AllShort }
    ensures closed { (t : Texts) → AllShort t → (p : List ℕ) → IfOk (closed t p) AllShort }
    ensures shown { (t : Texts) → AllShort t → (p : List ℕ) → IfSome (text_at t p) IsShort }
{}
