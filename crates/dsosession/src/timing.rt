//! Moments, and whether they have come (RFC 8490, 6).

ghost use Rattle.std.specs.Prelude.{◌≡◌, ◌≤◌, IfSome, ◌||◌, ℕ};
ghost use Rattle.push_base.specs.Limits.{max_number};
ghost use Rattle.dsosession.specs.Timing.{has_passed_of, has_run_out, reason_of, default_timers};
ghost use Rattle.dsosession.specs.SessionStates.{has_come};

use crate::session::{EndReason, Timers};
use crate::times::{DEFAULT_TIMER, INFINITE};

/// The timers until a Keepalive says otherwise, in milliseconds (RFC 8490, 6.2).
pub(crate) fn default_timers() -> Timers
    ensures { result ≡ default_timers }
{
    Timers {
        inactivity: DEFAULT_TIMER,
        keepalive: DEFAULT_TIMER,
    }
}

/// The moment at which a span has passed since another one; none where the timer is infinite, or the moment lies
/// beyond all moments.
pub(crate) fn end_of(timer: u32, span: u64, since: u64) -> Option<u64>
    ensures { (now : ℕ) → now ≤ max_number → has_come result now ≡ has_passed_of timer span since now }
{
    if timer == INFINITE {
        return None;
    }
    since.checked_add(span)
}

/// Whether so much as a timer has passed since a moment; an infinite one never does (RFC 8490, 6.4.1 and 6.5.1).
pub(crate) fn has_run_out(timer: u32, since: u64, now: u64) -> bool
    ensures { result ≡ has_run_out timer since now }
{
    has_come(end_of(timer, u64::from(timer), since), now)
}

/// Why a session ends that is silent or idle or both; none where it is neither.
pub(crate) fn reason_of(silent: bool, idle: bool) -> Option<EndReason>
    ensures { result ≡ reason_of silent idle }
{
    if silent {
        Some(EndReason::Silent)
    } else if idle {
        Some(EndReason::Idle)
    } else {
        None
    }
}

/// Whether a moment has come.
pub(crate) fn has_come(moment: Option<u64>, now: u64) -> bool
    ensures { result ≡ has_come moment now }
{
    moment.is_some_and(|moment| moment <= now)
}

/// The earlier of two moments.
pub(crate) fn earlier(one: Option<u64>, other: Option<u64>) -> Option<u64>
    ensures comes { (now : ℕ) → has_come result now ≡ (has_come one now || has_come other now) }
    ensures told { IfSome result (λ moment. moment ≤ max_number) }
{
    match (one, other) {
        (Some(one), Some(other)) => Some(one.min(other)),
        (Some(one), None) => Some(one),
        (None, Some(other)) => Some(other),
        (None, None) => None,
    }
}
