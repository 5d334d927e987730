// Where a session is in its life (LSP 3.17, server lifecycle).
ghost use Rattle.std.specs.Prelude.{◌≡◌};
ghost use Rattle.c_session.specs.React.{is_running, exit_status};

/// Before `initialize`, after it, and after `shutdown`.
#[derive(Clone, Copy, Debug, PartialEq, Eq)]
pub enum Phase {
    Fresh,
    Running,
    Down,
}

impl Phase {
    pub(crate) fn is_running(self) -> bool
        ensures { result ≡ is_running self }
    {
        match self {
            Phase::Fresh => false,
            Phase::Running => true,
            Phase::Down => false,
        }
    }

    /// The status of the process that an `exit` ends: 0 after a `shutdown` that was answered, else 1.
    pub(crate) fn exit_status(self) -> u8
        ensures { result ≡ exit_status self }
    {
        match self {
            Phase::Fresh => 1,
            Phase::Running => 1,
            Phase::Down => 0,
        }
    }
}
