//! The machine: a client, what it asks, and what is shown.

ghost use Rattle.std.specs.Prelude.{◌≡◌, ◌≤◌, ◌==◌, ◌&&◌, nat_le, length, if◌then◌else◌, IfOk, OnOk};
ghost use Rattle.push_base.specs.Limits.{max_questions};
ghost use Rattle.pushclient.specs.Clients.{closed_as, output_of};
ghost use Rattle.pushclient.specs.HandedOut.{without_output};
ghost use Rattle.browsing.specs.Showing.{later};
ghost use Rattle.browsing.specs.Browsing.{Browsing, StandsAs, asks, begins, concludes, forgets, is_connected_at, is_cut, list_of, listens, progress, refusal, turned, turns};

use crate::asking::{ask_all, drop_all, is_answered};
use crate::hearing::hear;
use crate::showing::{Progress, QUIET, Showing};
use crate::stage::{Stage, is_idle, stage_after};
use dsosession::session::CloseReason;
use push_base::NoMemory;
use push_base::limits::MAX_QUESTIONS;
use pushclient::client::Held;
use pushclient::{Client, hand_out_over};
use rrset::record::{Question, Questions};
use services::{Changes, Services, needs, services};
use std::alloc::Global;

/// A machine that browses: it asks for the services of a domain, and shows a list of them.
#[derive(Drop)]
pub struct Browser {
    client: Client,
    root: Question,
    asked: Questions,
    heard: u64,
    showing: Showing,
    stage: Stage,
}

// When octets last came.
fn heard_at(before: u64, octets: &[u8], now: u64) -> u64
    ensures { result ≡ (if length octets.now == 0 then before else now) }
{
    if octets.is_empty() { before } else { now }
}

// Whether all that is needed is answered, and no octet has come for a while.
fn is_settled(answered: bool, heard: u64, now: u64) -> bool
    ensures { result ≡ (answered && nat_le (later heard QUIET) now) }
{
    answered && heard.saturating_add(QUIET) <= now
}

impl Browser {
    /// A machine that is to ask this question, and shows nothing.
    pub fn new(alloc: Global, root: Question) -> Result<Self, NoMemory>
        ensures { IfOk result (λ browser. StandsAs browser (begins root)) }
    {
        let mut client = Client::new(alloc);
        let mut asked = Questions::new(alloc);
        let _ = client.subscribe(root.copy()?)?;
        asked.push(root.copy()?)?;
        Ok(Browser {
            client,
            root,
            asked,
            heard: 0,
            showing: Showing::new(alloc),
            stage: Stage::Begun,
        })
    }

    /// A connection was made: all that was asked is asked anew. The list that is shown stays.
    pub fn connected(&mut self, now: u64) -> Result<(), NoMemory>
        ensures { OnOk result ((b : Browsing) → StandsAs self.old b → StandsAs self.new (is_connected_at now b)) }
    {
        self.client.connected(now)?;
        self.heard = now;
        self.showing.begin(now);
        self.stage = Stage::Begun;
        Ok(())
    }

    /// The connection is gone. The list that is shown stays.
    pub fn cut(&mut self)
        ensures { (b : Browsing) → StandsAs self.old b → StandsAs self.new (is_cut b) }
    {
        self.client.cut();
    }

    /// A read gave these octets, and now it is this moment. Gives what changed of what is shown.
    pub fn turn(&mut self, alloc: Global, octets: &[u8], now: u64) -> Result<Changes, NoMemory>
        ensures { IfOk result (λ told. (b : Browsing) → StandsAs self.old b → (told ≡ (turned octets.now now b).0) × StandsAs self.new (turned octets.now now b).1) }
    {
        if is_idle(octets, self.stage, self.heard, &self.showing, now) {
            self.client.moment(now)?;
            return Ok(Changes::new(alloc));
        }
        let told = self.turn_over(alloc, octets, now)?;
        Ok(told)
    }

    // What is heard makes a list, and what that needs is asked. Gives what changed of what is shown.
    fn turn_over(&mut self, alloc: Global, octets: &[u8], now: u64) -> Result<Changes, NoMemory>
        ensures { IfOk result (λ told. (b : Browsing) → StandsAs self.old b → (told ≡ (turns octets.now now b).0) × StandsAs self.new (turns octets.now now b).1) }
    {
        self.listen(octets, now)?;
        let list = services(alloc, &self.client, &self.root)?;
        let needed = needs(alloc, &self.root, &list)?;
        self.ask(needed.as_slice(), now)?;
        let told = self.conclude(alloc, list, needed.as_slice(), now)?;
        Ok(told)
    }

    // The client takes what a read gave.
    fn listen(&mut self, octets: &[u8], now: u64) -> Result<(), NoMemory>
        ensures { OnOk result ((b : Browsing) → StandsAs self.old b → StandsAs self.new (listens octets.now now b)) }
    {
        hear(&mut self.client, octets)?;
        self.heard = heard_at(self.heard, octets, now);
        Ok(())
    }

    // What is needed is asked, and then it is this moment.
    fn ask(&mut self, needed: &[Question], now: u64) -> Result<(), NoMemory>
        ensures { OnOk result ((b : Browsing) → StandsAs self.old b → StandsAs self.new (asks needed.now now b)) }
    {
        ask_all(&mut self.client, &mut self.asked, needed)?;
        self.client.moment(now)?;
        Ok(())
    }

    // How far a list has come that asks for this.
    fn progress(&self, needed: &[Question], now: u64) -> Progress
        ensures { (b : Browsing) → StandsAs self.now b → result ≡ progress needed.now now b }
    {
        let answered = is_answered(&self.client, &self.root, needed);
        let settled = is_settled(answered, self.heard, now);
        Progress { answered, settled }
    }

    // How many questions are asked.
    fn count(&self) -> usize
        ensures { (b : Browsing) → StandsAs self.now b → result ≡ length b.asked }
    {
        self.asked.as_slice().len()
    }

    // Drops what isn't needed, where that is settled.
    fn forget(&mut self, alloc: Global, needed: &[Question], settled: bool) -> Result<(), NoMemory>
        ensures { OnOk result ((b : Browsing) → StandsAs self.old b → StandsAs self.new (if settled then forgets needed.now b else b)) }
    {
        if !settled {
            return Ok(());
        }
        let mut kept = Questions::new(alloc);
        drop_all(&mut self.client, &mut kept, needed, self.asked.as_slice())?;
        self.asked = kept;
        Ok(())
    }

    // Shows a list, where it is ripe, and gives what changed.
    fn conclude(
        &mut self,
        alloc: Global,
        list: Services,
        needed: &[Question],
        now: u64,
    ) -> Result<Changes, NoMemory>
        ensures { IfOk result (λ told. (b : Browsing) → StandsAs self.old b → (told ≡ (concludes list needed.now now b).0) × StandsAs self.new (concludes list needed.now now b).1) }
    {
        let progress = self.progress(needed, now);
        let asked = self.count();
        self.forget(alloc, needed, progress.settled)?;
        self.stage = stage_after(progress, asked, self.count());
        let told = self.showing.show(alloc, list, progress, now)?;
        Ok(told)
    }

    /// All that is to be sent.
    pub fn output(&mut self, alloc: Global, buffer: &mut [u8]) -> Result<Vec<u8>, NoMemory>
        requires { 1 ≤ length buffer.old }
        ensures { IfOk result (λ octets. (b : Browsing) → StandsAs self.old b →
            (octets.items ≡ output_of b.client) × StandsAs self.new (record b { client = without_output b.client })) }
    {
        let octets = hand_out_over(alloc, &mut self.client, buffer)?;
        Ok(octets)
    }

    /// Why the client closed this connection, where it did.
    pub fn closed(&self) -> Option<CloseReason>
        ensures { (b : Browsing) → StandsAs self.now b → result ≡ closed_as b.client }
    {
        self.client.closed()
    }

    /// The RCODE with which the question was refused, if it was.
    pub fn refused(&self) -> Option<u8>
        ensures { (b : Browsing) → StandsAs self.now b → result ≡ refusal b }
    {
        match self.client.mirror(&self.root) {
            Held::Refused(rcode) => Some(rcode),
            Held::Off => None,
            Held::Asked => None,
            Held::Answered(_) => None,
        }
    }

    /// Whether a list was whole on this connection.
    pub fn is_whole(&self) -> bool
        ensures { (b : Browsing) → StandsAs self.now b → result ≡ b.showing.whole }
    {
        self.showing.whole
    }

    /// The list that the records make which the client holds now, though it may not be whole.
    pub fn known(&self, alloc: Global) -> Result<Services, NoMemory>
        ensures { IfOk result (λ list. (b : Browsing) → StandsAs self.now b → list ≡ list_of b) }
    {
        let list = services(alloc, &self.client, &self.root)?;
        Ok(list)
    }

    /// Whether as many questions are asked as a client asks at most: what needs a further one may be missing.
    pub fn is_full(&self) -> bool
        ensures { (b : Browsing) → StandsAs self.now b → result ≡ nat_le max_questions (length b.asked) }
    {
        MAX_QUESTIONS <= self.count()
    }

    /// The list that is shown.
    pub fn shown(&self) -> &Services
        ensures { (b : Browsing) → StandsAs self.now b → result.now ≡ b.showing.list }
    {
        &self.showing.list
    }
}
