// What the plain server writes, as a law of the definitions.
ghost use Rattle.std.specs.Prelude.{ℕ, List};
ghost use Rattle.io_edges.specs.Store.{Entry};
ghost use Rattle.project_conf.specs.declared.options.Options.{Options};
ghost use Rattle.lsp_framing.specs.Frames.{frames};
ghost use Rattle.c11ls.specs.Exchanges.{AreAnswered};
ghost use Rattle.c11ls.specs.Plain.{plain, played};

use c_session::{exits_alone_end, requests_are_answered};

/// A law of the definitions, which has nothing to run: what the plain server writes for an input is the replies to the
/// contents of its frames in order, up to where it stops, and each of them answers its content: one response for each
/// request, and none for a notification.
pub fn plain_answers()
    ensures { (options : Options) (bytes : List ℕ) (answers : List Entry) →
        AreAnswered (frames bytes).contents (played options bytes answers).stop (plain options bytes answers).out }
{
    requests_are_answered();
    exits_alone_end();
}
