//! How `pushctl` ends.

ghost use Rattle.std.specs.Prelude.{◌≡◌};
ghost use Rattle.pushctl_commands.specs.Statuses.{code_of, where_starved};

/// How a command ends, each with its exit status.
#[derive(Clone, Copy)]
pub enum Status {
    /// All is done.
    Done,
    /// The words aren't a command's.
    Words,
    /// Memory ran out.
    NoMemory,
    /// The output can't be written.
    Output,
    /// The server wasn't reached in time.
    Unreached,
    /// The server refuses the question.
    Refused,
    /// The list wasn't whole in time; what was there was written.
    Partial,
    /// The server broke a rule of DSO: it isn't dialled again (RFC 8490, 6.6.3).
    Broken,
}

impl Status {
    /// The exit status.
    pub fn code(self) -> u8
        ensures { result ≡ code_of self }
    {
        match self {
            Status::Done => 0,
            Status::Words => 1,
            Status::NoMemory => 4,
            Status::Output => 5,
            Status::Unreached => 6,
            Status::Refused => 7,
            Status::Partial => 8,
            Status::Broken => 9,
        }
    }

    /// The same, where a sink wanted memory for a line, or not: then the output isn't at fault.
    pub fn where_starved(self, starved: bool) -> Status
        ensures { result ≡ where_starved starved self }
    {
        match (starved, self) {
            (true, Status::Output) => Status::NoMemory,
            (_, status) => status,
        }
    }
}
