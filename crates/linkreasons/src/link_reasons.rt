//! What the links of a server are asked, and why (RFC 8766, 5.6; RFC 8765, 6.5).

ghost use Rattle.std.specs.Prelude.{◌≡◌, ◌<◌, ◌≤◌, ◌+◌, ◌-◌, ◌^◌, ◌++◌, ◌∷◌, [], ℕ, false, length, replicate, true, Some, None, IfOk, OnOk, OnErr, slice_get, ◌==◌, if◌then◌else◌, option_map};
ghost use Rattle.push_base.specs.Cases.{changed_at};
ghost use Rattle.push_base.specs.Limits.{max_datagram, max_moment};
ghost use Rattle.linkcache.specs.Rows.{LinkRows, heard};
ghost use Rattle.linkcache.specs.declared.rules.LinkRules.{LinkRules};
ghost use Rattle.linkreasons.specs.AllReasons.{AreBoundsAt, AreFollowed, KeepsBounds, askings_of, but_last, doubted_less, doubted_more, in_session, only_reasons, still_doubted, with_reason, with_those, with_wanted, without_session};
ghost use Rattle.linkreasons.specs.Changing.{asked_on, have_reasons, is_there, names_at, settled_last};
ghost use Rattle.linkreasons.specs.Counting.{AreDistinct};

use crate::NoMemory;
use crate::asked_link::AskedLink;
use crate::asked_links::{
    ask_on, doubt_on, hear_on, new_links, refresh_on, settle_on, take_back_on,
};
use crate::leaving::{
    add_reason, clear_all, end_session, have_reasons, is_there, keep_those, take_back_last,
};
use crate::reason::Reason;
use crate::reasons::Reasons;
use linkask::laws;
use linkcache::Cache;
use rrset::{HeardRr, Key};
use std::alloc::Global;
use std::marker::Model;
use subscr::Subscriptions;

/// What each link is asked: that for which sessions and rows that were reconfirmed are a reason.
#[derive(Debug, Drop)]
pub struct LinkReasons {
    links: Vec<AskedLink>,
    sessions: Vec<(u64, Reasons)>,
    /// No question of a link has more reasons than so many.
    most: u64,
    /// Whether a session has any.
    busy: bool,
}

impl Model for LinkReasons {
    ghost use Rattle.linkreasons.specs.AllReasons.{AllReasons};
    ghost use Rattle.linkreasons.specs.Changing.{have_reasons};
    ghost use Rattle.linkreasons.specs.Counting.{IsAllCounted};
    ghost use Rattle.std.specs.Prelude.{◌≡◌};

    ghost Value = { AllReasons };

    ghost view = { λ a. record { links = a.links.items; sessions = a.sessions.items } };

    ghost invariant = { λ a. IsAllCounted a.most (record { links = a.links.items; sessions = a.sessions.items }) × (a.busy ≡ have_reasons a.sessions.items) };
}

/// One more than so many, where 64 bits have room for it.
fn more_room(most: u64) -> Result<u64, NoMemory>
    ensures more { IfOk result (λ more. more ≡ most + 1) }
    ensures small { OnOk result (most < 2 ^ 64 - 1) }
{
    if most == u64::MAX {
        return Err(NoMemory);
    }
    Ok(most + 1)
}

impl LinkReasons {
    /// So many links, and no sessions: nothing is asked.
    pub fn new(alloc: Global, links: usize) -> Result<Self, NoMemory>
        ensures { IfOk result (λ made. made ≡ record { links = replicate links (record { kept = []; reconfirmed = [] }); sessions = [] }) }
    {
        let made = new_links(alloc, links)?;
        Ok(LinkReasons {
            links: made,
            sessions: Vec::new(alloc),
            most: 0,
            busy: false,
        })
    }

    /// Each link is asked just what there is reason to, and no two sessions have one number.
    pub fn tell(&self)
        ensures follows { AreFollowed self.now }
        ensures numbers { AreDistinct self.now.sessions }
    {
        let _most = self.most;
    }

    /// How many links there are.
    pub fn links(&self) -> usize
        ensures { result ≡ length self.now.links }
    {
        self.links.len()
    }

    /// How many sessions there are.
    pub fn len(&self) -> usize
        ensures { result ≡ length self.now.sessions }
    {
        self.sessions.len()
    }

    /// Whether a session has a reason.
    pub fn has_reasons(&self) -> bool
        ensures { result ≡ have_reasons self.now.sessions }
    {
        self.busy
    }

    /// The number of a session, counted from 0 in the order in which they came, and how many reasons it has.
    pub fn session(&self, place: usize) -> Option<(u64, usize)>
        ensures { result ≡ option_map (λ e. (e.0, length e.1)) (slice_get self.now.sessions place) }
    {
        match self.sessions.get(place) {
            Some(entry) => Some((entry.0, entry.1.as_slice().len())),
            None => None,
        }
    }

    /// One more session, without reasons. A number that is there is refused as where memory runs out; then nothing changes.
    pub fn connect(&mut self, number: u64) -> Result<(), NoMemory>
        ensures ok { OnOk result (self.new.sessions ≡ self.old.sessions ++ (number, []) ∷ []) }
        ensures links { OnOk result (self.new.links ≡ self.old.links) }
        ensures err { OnErr result (self.new ≡ self.old) }
        ensures bounds { KeepsBounds self.old self.new }
    {
        if is_there(&self.sessions, number) {
            return Err(NoMemory);
        }
        let reasons = Reasons::new(*self.sessions.allocator());
        Ok(self.sessions.push((number, reasons))?)
    }

    /// A reason comes behind those of a session. Where memory runs out nothing changes.
    pub fn add(&mut self, number: u64, reason: Reason) -> Result<(), NoMemory>
        requires link { reason.link < length self.old.links }
        requires there { is_there number self.old.sessions ≡ true }
        ensures sessions { OnOk result (self.new.sessions ≡ in_session number (with_reason reason) self.old.sessions) }
        ensures askings { OnOk result (askings_of self.new ≡ with_wanted reason.link reason.question (askings_of self.old)) }
        ensures err { OnErr result (self.new ≡ self.old) }
        ensures bounds { KeepsBounds self.old self.new }
    {
        laws::reasons();
        laws::bounds();
        let most = more_room(self.most)?;
        self.most = most;
        let added = add_reason(&mut self.links, &mut self.sessions, number, reason);
        self.busy = have_reasons(&self.sessions);
        added
    }

    /// A session goes, and with it what has no reason any more.
    pub fn end(&mut self, number: u64)
        ensures sessions { self.new.sessions ≡ without_session number self.old.sessions }
        ensures askings { askings_of self.new ≡ only_reasons self.new.sessions (askings_of self.old) }
        ensures bounds { KeepsBounds self.old self.new }
    {
        laws::reasons();
        laws::bounds();
        end_session(&mut self.links, &mut self.sessions, number);
        self.busy = have_reasons(&self.sessions);
    }

    /// The last reason of a session is taken back.
    pub fn take_back(&mut self, number: u64)
        ensures sessions { self.new.sessions ≡ in_session number but_last self.old.sessions }
        ensures askings { askings_of self.new ≡ only_reasons self.new.sessions (askings_of self.old) }
        ensures bounds { KeepsBounds self.old self.new }
    {
        laws::reasons();
        laws::bounds();
        take_back_last(&mut self.links, &mut self.sessions, number);
        self.busy = have_reasons(&self.sessions);
    }

    /// Of the reasons of a session those stay whose ID is asked with.
    pub fn keep(&mut self, number: u64, asked: &Subscriptions)
        ensures sessions { self.new.sessions ≡ in_session number (with_those asked.now) self.old.sessions }
        ensures askings { askings_of self.new ≡ only_reasons self.new.sessions (askings_of self.old) }
        ensures bounds { KeepsBounds self.old self.new }
    {
        laws::reasons();
        laws::bounds();
        keep_those(&mut self.links, &mut self.sessions, number, asked);
        self.busy = have_reasons(&self.sessions);
    }

    /// A session has no reasons any more.
    pub fn clear(&mut self, number: u64)
        ensures sessions { self.new.sessions ≡ in_session number (λ _. []) self.old.sessions }
        ensures askings { askings_of self.new ≡ only_reasons self.new.sessions (askings_of self.old) }
        ensures bounds { KeepsBounds self.old self.new }
    {
        laws::reasons();
        laws::bounds();
        clear_all(&mut self.links, &mut self.sessions, number);
        self.busy = have_reasons(&self.sessions);
    }
    /// A row of a link was reconfirmed that had been heard at a moment. Where memory runs out nothing changes.
    pub fn doubt(&mut self, link: usize, key: Key, heard: u64) -> Result<(), NoMemory>
        requires { link < length self.old.links }
        ensures askings { OnOk result (askings_of self.new ≡ changed_at link (doubted_more key heard) (askings_of self.old)) }
        ensures sessions { OnOk result (self.new.sessions ≡ self.old.sessions) }
        ensures err { OnErr result (self.new ≡ self.old) }
        ensures bounds { KeepsBounds self.old self.new }
    {
        laws::reasons();
        laws::bounds();
        let most = more_room(self.most)?;
        self.most = most;
        doubt_on(&mut self.links, link, key, heard)
    }

    /// The last row of a link that was reconfirmed is taken back, and with it what has no reason any more.
    pub fn take_back_doubt(&mut self, link: usize)
        ensures sessions { self.new.sessions ≡ self.old.sessions }
        ensures askings { askings_of self.new ≡ only_reasons self.new.sessions (changed_at link doubted_less (askings_of self.old)) }
        ensures bounds { KeepsBounds self.old self.new }
    {
        laws::reasons();
        laws::bounds();
        take_back_on(&mut self.links, link);
    }

    /// The last row of a link that was reconfirmed stands for all of its key. Where it wasn't doubted already, its question
    /// begins anew.
    pub fn settle_doubt(&mut self, link: usize)
        ensures sessions { self.new.sessions ≡ self.old.sessions }
        ensures askings { askings_of self.new ≡ changed_at link settled_last (askings_of self.old) }
        ensures bounds { KeepsBounds self.old self.new }
    {
        laws::reasons();
        laws::bounds();
        settle_on(&mut self.links, link);
    }

    /// The rows of a link go that were heard since they were reconfirmed, or have gone, and with them what has no reason any
    /// more.
    pub fn refresh(&mut self, link: usize, cache: &Cache)
        ensures sessions { self.new.sessions ≡ self.old.sessions }
        ensures askings { askings_of self.new ≡ only_reasons self.new.sessions (changed_at link (still_doubted cache.now.state.rows) (askings_of self.old)) }
        ensures bounds { KeepsBounds self.old self.new }
    {
        laws::reasons();
        laws::bounds();
        refresh_on(&mut self.links, link, cache);
    }

    /// Whether a hearing says something of the name of a row of a link that was reconfirmed.
    pub fn is_named(&self, link: usize, hearing: &[HeardRr]) -> bool
        ensures { result ≡ names_at (slice_get self.now.links link) hearing.now }
    {
        match self.links.get(link) {
            Some(asked) => asked.is_named(hearing),
            None => false,
        }
    }

    /// Lowers the bounds of the questions of a link that ask for what it has heard, or may have.
    pub fn heard(&mut self, link: usize, hearing: &[HeardRr], now: u64)
        requires { now ≤ max_moment }
        ensures sessions { self.new.sessions ≡ self.old.sessions }
        ensures askings { askings_of self.new ≡ askings_of self.old }
        ensures bounds { (rules : LinkRules) (rows : LinkRows) → AreBoundsAt rows link self.old → AreBoundsAt (heard rules rows now hearing.now) link self.new }
        ensures keeps { KeepsBounds self.old self.new }
        ensures others { (other : ℕ) → (other == link) ≡ false → slice_get self.new.links other ≡ slice_get self.old.links other }
    {
        laws::bounds();
        hear_on(&mut self.links, link, hearing, now);
    }

    /// What is sent for the first question of a link that is due, which is asked now; false where none is due, or there is no
    /// such link. Without a datagram the buffer stays as it was.
    pub fn ask(
        &mut self,
        alloc: Global,
        link: usize,
        cache: &Cache,
        now: u64,
        out: &mut Vec<u8>,
    ) -> Result<bool, NoMemory>
        requires bounds { AreBoundsAt cache.now.state.rows link self.old }
        requires moment { now ≤ max_moment }
        ensures ok { IfOk result (λ found. (if found then Some out.new.items else None, askings_of self.new) ≡ asked_on cache.now.state.rows now link (askings_of self.old)) }
        ensures err { OnErr result (askings_of self.new ≡ askings_of self.old) }
        ensures none { IfOk result (λ found. found ≡ false → out.new.items ≡ out.old.items) }
        ensures nothing { OnErr result (out.new.items ≡ out.old.items) }
        ensures size { IfOk result (λ found. found ≡ true → length out.new.items ≤ max_datagram) }
        ensures sessions { self.new.sessions ≡ self.old.sessions }
        ensures bounds { AreBoundsAt cache.now.state.rows link self.new }
        ensures others { (other : ℕ) → (other == link) ≡ false → slice_get self.new.links other ≡ slice_get self.old.links other }
    {
        ask_on(&mut self.links, alloc, link, cache, now, out)
    }
}
