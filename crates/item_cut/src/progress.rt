// What the cut keeps of the front of an item.
ghost use Rattle.std.specs.Prelude.{not, ◌≡◌, ◌&&◌, ◌==◌, ◌<◌, []};
ghost use Rattle.item_cut.specs.Items as spec;
ghost use Rattle.item_cut.specs.Progress.{progress_of};
ghost use Rattle.item_cut.specs.Progress as steps;

use crate::marks::{Mark, mark_of};

#[derive(Clone, Copy, Debug, PartialEq, Eq, Hash, Drop)]
pub(crate) struct Progress {
    // Opening brackets less closing ones.
    pub depth: usize,
    // The last token is a `)`.
    pub closed: bool,
    // An `=` stood at depth 0.
    pub assigned: bool,
    // A body was opened.
    pub body: bool,
}

impl Progress {
    #[tactic(auto, unfolding(crate::specs::Progress::progress_of))]
    pub fn begun() -> Progress
        ensures { result ≡ progress_of [] }
    {
        Progress {
            depth: 0,
            closed: false,
            assigned: false,
            body: false,
        }
    }

    // A `{` would open the body here.
    fn awaits_body(&self) -> bool
        ensures { result ≡ (self.now.depth == 0 && self.now.closed && not self.now.assigned) }
    {
        self.depth == 0 && self.closed && !self.assigned
    }

    #[tactic(auto, unfolding(crate::specs::Progress::opens))]
    pub fn opens(&self, text: &str) -> bool
        ensures { result ≡ steps.opens self.now text.now }
    {
        self.awaits_body() && matches!(mark_of(text), Mark::OpenBrace)
    }

    #[tactic(auto, unfolding(crate::specs::Progress::after, crate::specs::Progress::opens, crate::specs::Items::depth_after))]
    pub fn after(&self, text: &str) -> Progress
        requires { self.now.depth < 2000000 }
        ensures { result ≡ steps.after self.now text.now }
    {
        let same = Progress {
            closed: false,
            ..*self
        };
        match mark_of(text) {
            Mark::OpenParen | Mark::OpenBracket => Progress {
                depth: self.depth + 1,
                ..same
            },
            Mark::OpenBrace => Progress {
                depth: self.depth + 1,
                body: self.body || self.awaits_body(),
                ..same
            },
            Mark::CloseParen => Progress {
                depth: self.depth.saturating_sub(1),
                closed: true,
                ..same
            },
            Mark::CloseBracket | Mark::CloseBrace => Progress {
                depth: self.depth.saturating_sub(1),
                ..same
            },
            Mark::Equals => Progress {
                assigned: self.assigned || self.depth == 0,
                ..same
            },
            Mark::Semicolon | Mark::Comma | Mark::Other => same,
        }
    }

    // The token that led here ends the item.
    #[tactic(auto, unfolding(crate::specs::Progress::ends))]
    pub fn ends(&self, text: &str) -> bool
        ensures { result ≡ steps.ends self.now text.now }
    {
        match mark_of(text) {
            Mark::Semicolon => self.depth == 0,
            Mark::CloseBrace => self.depth == 0 && self.body,
            _ => false,
        }
    }
}
