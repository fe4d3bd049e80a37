//! What links are asked follows the reasons for it.

ghost use Rattle.std.specs.Prelude.{◌≡◌, None, Some, false, option_map, slice_get};
ghost use Rattle.std.specs.List.{AllZip};
ghost use Rattle.history.specs.Kept.{state_of};
ghost use Rattle.linkcache.specs.Rows.{at_moment};
ghost use Rattle.linkreasons.specs.AllReasons.{askings_of};
ghost use Rattle.pushserver.specs.Hubs.{state_now};
ghost use Rattle.hubasking.specs.Following.{ClearsAt, EndsBut, LeadFrom, RefreshesAt, StaysAt, StillBut, doubts_in};
ghost use Rattle.hubasking.specs.LinkAskings.{behind, kept_questions};
ghost use Rattle.hubasking.specs.KeptReasons.{AreKept, CanFollow, HasBounds, MatchesLink, followed, rests, rests_in, session_reasons};

use history::Homes;
use linkcache::Cache;
use linkreasons::LinkReasons;
use linkreasons::laws::reasons_are_followed;

/// Which links may have rows behind a call that went or were heard in it.
#[derive(Clone, Copy)]
pub(crate) enum Touched {
    /// None.
    Nothing,
    /// One.
    Link(usize),
    /// All.
    Links,
}

/// Whether the session in a place asks nothing.
fn rests_at(hub: &pushserver::Hub, place: usize) -> bool
    ensures { result ≡ rests_in (slice_get hub.now.sessions place) }
{
    match hub.session_at(place) {
        Some((_, session)) => session.subscriptions().len() == 0,
        None => true,
    }
}

/// Whether a session asks nothing, which stands in this place.
fn rests(hub: &pushserver::Hub, reasons: &LinkReasons, place: usize, number: u64) -> bool
    requires follows { CanFollow hub.now reasons.now }
    requires there { option_map (λ e. e.0) (slice_get reasons.now.sessions place) ≡ Some number }
    ensures { result ≡ rests hub.now number }
{
    rests_at(hub, place)
}

/// The session in a place has no reasons where it asks nothing.
fn clear_at(hub: &pushserver::Hub, reasons: &mut LinkReasons, place: usize)
    requires { CanFollow hub.now reasons.old }
    ensures { ClearsAt hub.now place reasons.old reasons.new }
{
    let Some((number, count)) = reasons.session(place) else {
        return;
    };
    if count > 0 {
        if rests(hub, reasons, place, number) {
            reasons.clear(number);
        }
    }
}

/// Sessions that ask nothing have no reasons any more.
fn clear_rested(hub: &pushserver::Hub, reasons: &mut LinkReasons)
    requires { CanFollow hub.now reasons.old }
    ensures sessions { reasons.new.sessions ≡ session_reasons (state_now hub.now) hub.now.sessions }
    ensures leads { LeadFrom 0 (session_reasons (state_now hub.now) hub.now.sessions) (state_now hub.now).links (askings_of reasons.old) (askings_of reasons.new) }
    ensures bounds { AllZip HasBounds (state_now hub.now).links reasons.new.links }
    ensures doubts { doubts_in (askings_of reasons.new) ≡ doubts_in (askings_of reasons.old) }
{
    if !reasons.has_reasons() {
        return;
    }
    reasons_are_followed();
    'sessions: for place in 0..reasons.len() {
        clear_at(hub, reasons, place);
    }
}

/// Rows of a link that were heard since, or went, aren't reconfirmed any more.
fn refresh_at(hub: &pushserver::Hub, reasons: &mut LinkReasons, link: usize)
    ensures { RefreshesAt hub.now link reasons.old reasons.new }
{
    if let Some(cache) = hub.homes().cache(link) {
        reasons.refresh(link, cache);
    }
}

/// Rows of all links that were heard since, or went, aren't reconfirmed any more.
fn refresh_all(hub: &pushserver::Hub, reasons: &mut LinkReasons)
    requires sessions { reasons.old.sessions ≡ session_reasons (state_now hub.now) hub.now.sessions }
    requires bounds { AllZip HasBounds (state_now hub.now).links reasons.old.links }
    ensures sessions { reasons.new.sessions ≡ reasons.old.sessions }
    ensures leads { LeadFrom 0 reasons.old.sessions (state_now hub.now).links (askings_of reasons.old) (askings_of reasons.new) }
    ensures links { AllZip MatchesLink (state_now hub.now).links reasons.new.links }
{
    reasons_are_followed();
    'links: for link in 0..reasons.links() {
        refresh_at(hub, reasons, link);
    }
}

/// Rows that were heard since, or went, aren't reconfirmed any more. Only rows of links that a call touched may be such.
fn refresh_links(hub: &pushserver::Hub, reasons: &mut LinkReasons, touched: Touched)
    requires sessions { reasons.old.sessions ≡ session_reasons (state_now hub.now) hub.now.sessions }
    requires bounds { AllZip HasBounds (state_now hub.now).links reasons.old.links }
    requires still { StillBut touched (state_now hub.now).links (doubts_in (askings_of reasons.old)) }
    ensures sessions { reasons.new.sessions ≡ reasons.old.sessions }
    ensures leads { LeadFrom 0 reasons.old.sessions (state_now hub.now).links (askings_of reasons.old) (askings_of reasons.new) }
    ensures links { AllZip MatchesLink (state_now hub.now).links reasons.new.links }
{
    reasons_are_followed();
    match touched {
        Touched::Nothing => {}
        Touched::Link(link) => refresh_at(hub, reasons, link),
        Touched::Links => refresh_all(hub, reasons),
    }
}

/// Each link is asked what there is reason to behind a call that touched rows of these links alone.
pub(crate) fn follow(hub: &pushserver::Hub, reasons: &mut LinkReasons, touched: Touched)
    requires follows { CanFollow hub.now reasons.old }
    requires still { StillBut touched (state_now hub.now).links (doubts_in (askings_of reasons.old)) }
    ensures kept { AreKept hub.now reasons.new }
    ensures askings { askings_of reasons.new ≡ followed hub.now (askings_of reasons.old) }
    ensures behind { followed hub.now (askings_of reasons.old) ≡ behind kept_questions None hub.now (askings_of reasons.old) }
{
    reasons.tell();
    clear_rested(hub, reasons);
    refresh_links(hub, reasons, touched);
    reasons.tell();
    reasons_are_followed();
}

/// Whether a row of a link ends by a moment.
fn ends_by(cache: &Cache, at: u64) -> bool
    ensures { result ≡ false → at_moment cache.now.state.rows at ≡ cache.now.state.rows }
{
    match cache.next_end() {
        Some(end) => end <= at,
        None => false,
    }
}

/// Whether a row of the link at a place ends by a moment.
fn ends_at(homes: &Homes, link: usize, at: u64) -> bool
    ensures { result ≡ false → StaysAt at (slice_get (state_of homes.now).links link) }
{
    match homes.cache(link) {
        Some(cache) => ends_by(cache, at),
        None => false,
    }
}

/// Which links a moment touches: none where no row ends by it.
pub(crate) fn touched_by(hub: &pushserver::Hub, reasons: &LinkReasons, at: u64) -> Touched
    requires { AreKept hub.now reasons.now }
    ensures { EndsBut result at (state_now hub.now).links }
{
    let homes = hub.homes();
    'links: for link in 0..reasons.links() {
        if ends_at(homes, link, at) {
            return Touched::Links;
        }
    }
    Touched::Nothing
}
