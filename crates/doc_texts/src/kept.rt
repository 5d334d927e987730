// A file's text and an open document, as `Docs` keeps them.
ghost use Rattle.std.specs.Prelude.{◌≡◌, ◌≤◌, ℤ, length, IfOk};
ghost use Rattle.std.specs.String.{string_bytes};
ghost use Rattle.doc_texts.specs.Limits.{longest_kept};

use std::alloc::{AllocError, Global};
use std::marker::Model;
use std::rc::RcStr;

/// A text of at most 4,290,772,992 bytes, as many as a text may have that is lexed. It may be shared. Contracts see it as its
/// bytes.
#[derive(Debug, Drop)]
pub(crate) struct KeptText {
    text: RcStr,
}

impl Model for KeptText {
    ghost use Rattle.std.specs.Prelude.{◌≤◌, ℕ, List, length};
    ghost use Rattle.std.specs.Rc.{rc_str_bytes};
    ghost use Rattle.doc_texts.specs.Limits.{longest_kept};

    ghost Value = { List ℕ };

    ghost view = { λ kept. rc_str_bytes kept.text };

    ghost invariant = { λ kept. length (rc_str_bytes kept.text) ≤ longest_kept };
}

impl KeptText {
    /// This text.
    pub(crate) fn from_string(text: String) -> Result<KeptText, AllocError>
        requires { length (string_bytes text) ≤ longest_kept }
        ensures { IfOk result (λ kept. kept ≡ string_bytes text) }
    {
        let text = RcStr::from_string(text)?;
        Ok(KeptText { text })
    }

    /// A copy of this text.
    pub(crate) fn from_str(alloc: Global, text: &str) -> Result<KeptText, AllocError>
        requires { length text.now ≤ longest_kept }
        ensures { IfOk result (λ kept. kept ≡ text.now) }
    {
        let text = RcStr::from_str(alloc, text)?;
        Ok(KeptText { text })
    }

    /// The same text, shared. It takes no memory but may be refused where the text is shared 2^64 times.
    pub(crate) fn share(&self) -> Result<KeptText, AllocError>
        ensures { IfOk result (λ copy. copy ≡ self.now) }
    {
        let text = self.text.clone()?;
        Ok(KeptText { text })
    }

    /// The text.
    pub(crate) fn as_str(&self) -> &str
        ensures text { result.now ≡ self.now }
        ensures short { length self.now ≤ longest_kept }
    {
        &self.text
    }
}

/// An open document. Contracts see it as an `OpenText`.
#[derive(Debug, Drop)]
pub(crate) struct OpenDoc {
    uri: RcStr,
    version: i32,
    text: KeptText,
}

impl Model for OpenDoc {
    ghost use Rattle.std.specs.Rc.{rc_str_bytes};
    ghost use Rattle.doc_texts.specs.Texts.{OpenText, document_code};

    ghost Value = { OpenText };

    ghost coded = { document_code };

    ghost view = { λ document. record { uri = rc_str_bytes document.uri; version = document.version; text = document.text } };
}

impl OpenDoc {
    /// A document with copies of this URI and text.
    pub(crate) fn new(
        alloc: Global,
        uri: &str,
        version: i32,
        text: &str,
    ) -> Result<OpenDoc, AllocError>
        requires { length text.now ≤ longest_kept }
        ensures { IfOk result (λ document. document ≡ record { uri = uri.now; version = version; text = text.now }) }
    {
        let uri = RcStr::from_str(alloc, uri)?;
        let text = KeptText::from_str(alloc, text)?;
        Ok(OpenDoc { uri, version, text })
    }

    /// The same document, its URI and its text shared. It takes no memory but may be refused where these are shared 2^64 times.
    pub(crate) fn share(&self) -> Result<OpenDoc, AllocError>
        ensures { IfOk result (λ copy. copy ≡ self.now) }
    {
        let uri = self.uri.clone()?;
        let text = self.text.share()?;
        Ok(OpenDoc {
            uri,
            version: self.version,
            text,
        })
    }

    /// The text.
    pub(crate) fn text(&self) -> &str
        ensures text { result.now ≡ self.now.text }
        ensures short { length self.now.text ≤ longest_kept }
    {
        self.text.as_str()
    }

    /// The text's version.
    pub(crate) fn version(&self) -> i32
        ensures { result ≡ self.now.version }
    {
        self.version
    }

    /// The URI that the document was opened with.
    pub(crate) fn uri(&self) -> &str
        ensures { result.now ≡ self.now.uri }
    {
        &self.uri
    }

    /// Another text, with its version.
    pub(crate) fn set(&mut self, version: i32, text: KeptText)
        ensures { self.new ≡ record { uri = self.old.uri; version = version; text = text } }
    {
        self.version = version;
        self.text = text;
    }

    /// Another text, with the version that there is.
    pub(crate) fn set_text(&mut self, text: KeptText)
        ensures { self.new ≡ record { uri = self.old.uri; version = self.old.version; text = text } }
    {
        self.text = text;
    }
}
