//! What a loop told others.

ghost use Rattle.std.specs.Prelude.{◌≡◌, None};
ghost use Rattle.hubloops.specs.Gates.{with_line, with_session};

/// How often a loop told others that a line is over, of which session last, and how often that a session has ended.
#[derive(Clone, Copy, Debug, PartialEq, Eq)]
pub struct Overs {
    pub lines: u64,
    pub line: Option<u64>,
    pub sessions: u64,
}

impl Overs {
    /// Nothing was told.
    pub(crate) fn none() -> Overs
        ensures { result ≡ record { lines = 0; line = None; sessions = 0 } }
    {
        Overs {
            lines: 0,
            line: None,
            sessions: 0,
        }
    }

    /// A session's line is over.
    pub(crate) fn with_line(self, session: u64) -> Overs
        ensures { result ≡ with_line session self }
    {
        Overs {
            lines: self.lines.saturating_add(1),
            line: Some(session),
            sessions: self.sessions,
        }
    }

    /// One session has ended.
    pub(crate) fn with_session(self) -> Overs
        ensures { result ≡ with_session self }
    {
        Overs {
            lines: self.lines,
            line: self.line,
            sessions: self.sessions.saturating_add(1),
        }
    }
}
