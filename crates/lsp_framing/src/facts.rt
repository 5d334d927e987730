//! What the definition of frames gives alone, whatever the code does. These functions do nothing.
ghost use Rattle.std.specs.Prelude.{◌≡◌, ◌≢◌, ℕ, ◌+◌, ◌*◌, ◌≤◌, List, [], ◌∷◌, ◌++◌, length, take, drop, slice_get, Some};
ghost use Rattle.lsp_framing.specs.declared.FrameKind.{FrameKind};
ghost use Rattle.lsp_framing.specs.Frames.{front, Whole, Faulty, Unfinished, frames, parted, after, shifted, Empty, Open, Bad};
ghost use Rattle.lsp_framing.specs.Lines.{longest_content};
ghost use Rattle.frame_form.specs.Written.{framed};
ghost use Rattle.std.specs.List.{AllByRecursion, flat_map};

/// No byte is no frame.
pub fn frames_nil()
    ensures { frames [] ≡ parted [] Empty }
{}

/// A whole frame in front gives its content, and behind it stand the frames of the bytes that follow it.
pub fn frame_in_front()
    ensures { (bytes : List ℕ) (size : ℕ) (content : List ℕ) → front bytes ≡ Whole size content
        → frames bytes ≡ after (content ∷ []) (shifted (size + length content) (frames (drop (size + length content) bytes))) }
{}

/// A fault in front is what stands.
pub fn fault_in_front()
    ensures { (bytes : List ℕ) (at : ℕ) (kind : FrameKind) → front bytes ≡ Faulty at kind → bytes ≢ [] → frames bytes ≡ parted [] (Bad at kind) }
{}

/// Bytes that may yet become a frame or a fault are what stands.
pub fn open_in_front()
    ensures { (bytes : List ℕ) → front bytes ≡ Unfinished → bytes ≢ [] → frames bytes ≡ parted [] Open }
{}

/// A frame has twenty bytes at the least, so an input has few contents.
pub fn contents_few()
    ensures { (bytes : List ℕ) → length (frames bytes).contents * 20 ≤ length bytes }
{}

/// More bytes leave the contents that were there.
pub fn contents_stay()
    ensures { (a b : List ℕ) → take (length (frames a).contents) (frames (a ++ b)).contents ≡ (frames a).contents }
{}

/// A fault stays, for good.
pub fn bad_stays()
    ensures { (a b : List ℕ) (place : ℕ) (kind : FrameKind) → (frames a).rest ≡ Bad place kind → frames (a ++ b) ≡ frames a }
{}

/// A fault lies within the input.
pub fn bad_within()
    ensures { (bytes : List ℕ) (place : ℕ) (kind : FrameKind) → (frames bytes).rest ≡ Bad place kind → place ≤ length bytes }
{}

/// A content has at most 16,777,216 bytes.
pub fn contents_short()
    ensures { (bytes : List ℕ) (i : ℕ) (content : List ℕ)
        → slice_get (frames bytes).contents i ≡ Some content → length content ≤ longest_content }
{}

/// Contents that are framed and written one behind the other are read.
pub fn written_are_read()
    ensures { (contents : List (List ℕ)) → AllByRecursion (λ content. length content ≤ longest_content) contents
        → frames (flat_map framed contents) ≡ parted contents Empty }
{}
