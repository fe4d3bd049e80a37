//! How a conversation ends, and what comes of it.

ghost use Rattle.std.specs.Prelude.{◌≡◌};
ghost use Rattle.pushctl_commands.specs.Statuses.{ending_of, ending_told};

use dsosession::session::CloseReason;

/// How a conversation ends.
#[derive(Clone, Copy)]
pub(crate) enum Ending {
    /// The list is whole, and was to be written once.
    Whole,
    /// The time is over.
    TimedOut,
    /// The server closed the connection, or it broke. Whether an octet had come.
    Gone(bool),
    /// The server asks the client to come back after so many milliseconds (RFC 8490, 6.6).
    Delayed(u32),
    /// The client closed for another reason that breaks no rule.
    Idle,
    /// The server broke a rule of DSO.
    Broken,
    /// The server refuses the question, with this RCODE.
    Refused(u8),
}

// What comes of a connection that the client has closed.
fn ending_of(reason: CloseReason) -> Ending
    ensures { result ≡ ending_of reason }
{
    match reason {
        CloseReason::Delay(delay, _) => Ending::Delayed(delay),
        CloseReason::Idle => Ending::Idle,
        CloseReason::Short
        | CloseReason::Opcode
        | CloseReason::Counts
        | CloseReason::Tlvs
        | CloseReason::Early
        | CloseReason::Stranger(_)
        | CloseReason::Misuse(_)
        | CloseReason::BadData(_)
        | CloseReason::Unknown(_)
        | CloseReason::Interval(_)
        | CloseReason::Kept(_) => Ending::Broken,
    }
}

/// How a conversation ends, if it does: its question is refused, the client has closed, the list is whole and written once,
/// or the time is over.
pub(crate) fn ending_told(
    refused: Option<u8>,
    closed: Option<CloseReason>,
    is_whole: bool,
    is_late: bool,
) -> Option<Ending>
    ensures { result ≡ ending_told refused closed is_whole is_late }
{
    match (refused, closed) {
        (Some(rcode), _) => Some(Ending::Refused(rcode)),
        (None, Some(reason)) => Some(ending_of(reason)),
        (None, None) if is_whole => Some(Ending::Whole),
        (None, None) if is_late => Some(Ending::TimedOut),
        (None, None) => None,
    }
}
