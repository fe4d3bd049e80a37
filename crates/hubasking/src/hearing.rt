//! What a datagram of a link lets it be asked for anew.

ghost use Rattle.std.specs.Prelude.{◌≤◌};
ghost use Rattle.push_base.specs.Limits.{max_moment};
ghost use Rattle.hubasking.specs.Following.{HearsBut};
ghost use Rattle.hubasking.specs.KeptReasons.{Lowers};

use crate::following::Touched;
use linkreasons::LinkReasons;
use pushserver::Why;
use rrset::Hearing;

/// Bounds of a link are lowered for what it may hear.
pub(crate) fn lower(reasons: &mut LinkReasons, link: usize, now: u64, read: &Result<Hearing, Why>)
    requires { now ≤ max_moment }
    ensures { Lowers link now read.now reasons.old reasons.new }
{
    match read {
        Ok(hearing) => reasons.heard(link, hearing.rrs.as_slice(), now),
        Err(_) => {}
    }
}

/// Which links a hearing touches: its own, where it says something of a row that was reconfirmed.
pub(crate) fn touched_by_hearing(
    reasons: &LinkReasons,
    link: usize,
    read: &Result<Hearing, Why>,
) -> Touched
    ensures { HearsBut result link read.now reasons.now }
{
    match read {
        Ok(hearing) => {
            if reasons.is_named(link, hearing.rrs.as_slice()) {
                Touched::Link(link)
            } else {
                Touched::Nothing
            }
        }
        Err(_) => Touched::Nothing,
    }
}
