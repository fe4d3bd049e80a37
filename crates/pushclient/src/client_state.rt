//! A client as it is kept.

ghost use Rattle.std.specs.Prelude.{◌≡◌, ◌++◌, [], None, IfOk, OnOk, OnErr, drop, is_some, length, min, take};
ghost use Rattle.pushclient.specs.Kept.{HoldsAs, asked_wanted, closed_on, kept_ask, kept_ask_first, kept_connected, kept_cut, kept_drop, kept_give, kept_held, kept_id_of, kept_moment, kept_reconfirm, kept_subscribe, kept_take, kept_unsubscribe, output_on, room_on};
ghost use Rattle.pushclient.specs.HeardMessages.{kept_heard};
ghost use Rattle.pushclient.specs.Rule.{standing_of};

use crate::client::{Asked, Held, Step};
use crate::connection::Connection;
use crate::wish::{Wish, WishStatus};
use crate::{NoMemory, opened, reacting, wishes};
use dsosession::session::CloseReason;
use mirror::Mirror;
use push_base::limits::MAX_QUESTIONS;
use rrset::record::{Question, Rr};
use std::alloc::Global;
use std::marker::Model;

/// Wishes in the order of asking, the connection, the sets of answered questions, and the moment.
#[derive(Debug, Drop)]
pub(crate) struct ClientState {
    wishes: Vec<Wish>,
    connection: Option<Connection>,
    mirror: Mirror,
    moment: u64,
}

impl Model for ClientState {
    ghost use Rattle.pushclient.specs.Rule.{KeptClient};

    ghost Value = { KeptClient };

    ghost view = { λ k. record { wishes = k.wishes.items; connection = k.connection; now = k.moment; sets = k.mirror } };
}

impl ClientState {
    /// No wish, and no connection.
    pub(crate) fn new(alloc: Global) -> Self
        ensures { result ≡ record { wishes = []; connection = None; now = 0; sets = [] } }
    {
        ClientState {
            wishes: Vec::new(alloc),
            connection: None,
            mirror: Mirror::new(alloc),
            moment: 0,
        }
    }

    /// The wish for a question is the last in order, and is asked where the connection is open.
    fn ask(&mut self, question: Question) -> Result<(), NoMemory>
        ensures ok { OnOk result (self.new ≡ kept_ask question self.old) }
        ensures err { OnErr result (self.new ≡ self.old) }
    {
        self.wishes.reserve(1)?;
        let standing = opened::ask(&mut self.connection, &self.wishes, &question, self.moment)?;
        let wish = Wish {
            question,
            wanted: true,
            standing,
        };
        if self.wishes.push(wish).is_err() {
            unreachable!();
        }
        Ok(())
    }

    /// The connection is gone. What was dropped is forgotten, and nothing is asked.
    pub(crate) fn cut(&mut self)
        ensures { self.new ≡ kept_cut self.old }
    {
        self.mirror = Mirror::new(*self.wishes.allocator());
        wishes::cut(&mut self.wishes);
        self.connection = None;
    }

    /// Says that a record may be out of date, and whether that was said: the client must be established, and a frame hold
    /// the message (RFC 8765, 6.5).
    pub(crate) fn reconfirm(&mut self, rr: &Rr) -> Result<bool, NoMemory>
        ensures said { IfOk result (λ said. said ≡ (kept_reconfirm self.old rr.now).0) }
        ensures ok { OnOk result (self.new ≡ (kept_reconfirm self.old rr.now).1) }
        ensures err { OnErr result (self.new ≡ self.old) }
    {
        opened::reconfirm(&mut self.connection, rr, self.moment)
    }

    /// Takes the longest front of a piece of the input for which there is room, and gives its length (RFC 7766, 8).
    pub(crate) fn take(&mut self, piece: &[u8]) -> usize
        ensures count { result ≡ min (length piece.now) (room_on self.old.connection) }
        ensures taken { self.new ≡ kept_take piece.now self.old }
    {
        opened::take(&mut self.connection, piece)
    }

    /// Copies the longest front of the output that fits, takes it out, and gives its length.
    pub(crate) fn give(&mut self, buf: &mut [u8]) -> usize
        ensures count { result ≡ min (length buf.old) (length (output_on self.old.connection)) }
        ensures octets { buf.new ≡ take (length buf.old) (output_on self.old.connection) ++ drop (length (output_on self.old.connection)) buf.old }
        ensures rest { self.new ≡ kept_give (min (length buf.old) (length (output_on self.old.connection))) self.old }
    {
        opened::give(&mut self.connection, buf)
    }

    /// It is a moment: a Keepalive goes out, or the connection closes, where that is due (RFC 8490, 6.4 and 6.5).
    pub(crate) fn moment(&mut self, now: u64) -> Result<(), NoMemory>
        ensures ok { OnOk result (self.new ≡ kept_moment self.old now) }
        ensures err { OnErr result (self.new ≡ self.old) }
    {
        opened::moment(&mut self.connection, &self.wishes, now)?;
        self.moment = now;
        Ok(())
    }

    /// Reacts to one whole message, where one is there and the connection is open. Where memory runs out nothing changes.
    pub(crate) fn step(&mut self) -> Result<Step, NoMemory>
        ensures told { IfOk result (λ told. told ≡ (kept_heard self.old).0) }
        ensures ok { OnOk result (self.new ≡ (kept_heard self.old).1) }
        ensures err { OnErr result (self.new ≡ self.old) }
    {
        reacting::step(
            &mut self.connection,
            &mut self.wishes,
            &mut self.mirror,
            self.moment,
        )
    }

    /// Asks the questions of all wishes that are wanted.
    fn ask_wanted(&mut self, wishes: &[Wish]) -> Result<(), NoMemory>
        ensures { OnOk result (self.new ≡ asked_wanted wishes.now self.old) }
    {
        'wishes: for wish in wishes {
            if wish.wanted {
                self.ask(wish.question.copy()?)?;
            }
        }
        Ok(())
    }

    /// A new connection, on which all wanted questions are asked anew. Where memory runs out nothing changes.
    pub(crate) fn connected(&mut self, now: u64) -> Result<(), NoMemory>
        ensures ok { OnOk result (self.new ≡ kept_connected now self.old) }
        ensures err { OnErr result (self.new ≡ self.old) }
    {
        let alloc = *self.wishes.allocator();
        let mut fresh = ClientState {
            wishes: Vec::new(alloc),
            connection: Some(Connection::new(alloc, now)?),
            mirror: Mirror::new(alloc),
            moment: now,
        };
        fresh.ask_wanted(&self.wishes)?;
        *self = fresh;
        Ok(())
    }

    /// Asks a question that no wish is for, where there is room for one more.
    fn ask_first(&mut self, question: Question) -> Result<Asked, NoMemory>
        ensures asked { IfOk result (λ asked. asked ≡ (kept_ask_first question self.old).0) }
        ensures ok { OnOk result (self.new ≡ (kept_ask_first question self.old).1) }
        ensures err { OnErr result (self.new ≡ self.old) }
    {
        if self.wishes.len() >= MAX_QUESTIONS {
            return Ok(Asked::Many);
        }
        self.ask(question)?;
        Ok(Asked::New)
    }

    /// Asks a question, unless it is wanted already or there are too many wishes. One that was dropped without an answer
    /// is wanted again without a message, as the last in order (RFC 8765, 6.2).
    pub(crate) fn subscribe(&mut self, question: Question) -> Result<Asked, NoMemory>
        ensures asked { IfOk result (λ asked. asked ≡ (kept_subscribe self.old question).0) }
        ensures ok { OnOk result (self.new ≡ (kept_subscribe self.old question).1) }
        ensures err { OnErr result (self.new ≡ self.old) }
    {
        let Some(wish) = wishes::wish_for(&self.wishes, &question) else {
            return self.ask_first(question);
        };
        if wish.wanted {
            return Ok(Asked::Already);
        }
        let again = Wish {
            question: wish.question.copy()?,
            wanted: true,
            standing: wish.standing,
        };
        wishes::move_back(&mut self.wishes, &question, again)?;
        Ok(Asked::New)
    }

    /// Drops the wish for a question, which stands so: an answered subscription is ended by a message where the connection
    /// is open, an unanswered one waits for its answer, any other goes (RFC 8765, 6.4).
    fn drop_wish(&mut self, question: &Question, standing: WishStatus) -> Result<(), NoMemory>
        ensures ok { OnOk result (self.new ≡ kept_drop question.now (standing_of standing) self.old) }
        ensures err { OnErr result (self.new ≡ self.old) }
    {
        match standing {
            WishStatus::Answered(id) => {
                opened::unsubscribe(&mut self.connection, id, self.moment)?;
                self.mirror.end(question);
                wishes::forget(&mut self.wishes, question);
            }
            WishStatus::Unanswered(_) => wishes::drop_wish(&mut self.wishes, question),
            WishStatus::NotAsked | WishStatus::Refused(_) => {
                self.mirror.end(question);
                wishes::forget(&mut self.wishes, question);
            }
        }
        Ok(())
    }

    /// Drops a question, and says whether it was wanted (RFC 8765, 6.4).
    pub(crate) fn unsubscribe(&mut self, question: &Question) -> Result<bool, NoMemory>
        ensures wanted { IfOk result (λ wanted. wanted ≡ (kept_unsubscribe self.old question.now).0) }
        ensures ok { OnOk result (self.new ≡ (kept_unsubscribe self.old question.now).1) }
        ensures err { OnErr result (self.new ≡ self.old) }
    {
        let Some(wish) = wishes::wish_for(&self.wishes, question) else {
            return Ok(false);
        };
        if !wish.wanted {
            return Ok(false);
        }
        let standing = wish.standing;
        self.drop_wish(question, standing)?;
        Ok(true)
    }

    /// Whether there is a connection, open or closed.
    pub(crate) fn is_connected(&self) -> bool
        ensures { result ≡ is_some self.now.connection }
    {
        self.connection.is_some()
    }

    /// Why the connection closed.
    pub(crate) fn closed(&self) -> Option<CloseReason>
        ensures { result ≡ closed_on self.now.connection }
    {
        match &self.connection {
            Some(connection) => connection.closed,
            None => None,
        }
    }

    /// The ID of the request for a question.
    pub(crate) fn id_of(&self, question: &Question) -> Option<u16>
        ensures { result ≡ kept_id_of self.now question.now }
    {
        match wishes::wish_for(&self.wishes, question) {
            Some(wish) => wish.standing.id(),
            None => None,
        }
    }

    /// What is known of a question.
    pub(crate) fn mirror<'a>(&'a self, question: &Question) -> Held<'a>
        ensures { HoldsAs result (kept_held self.now question.now) }
    {
        let Some(wish) = wishes::wish_for(&self.wishes, question) else {
            return Held::Off;
        };
        if !wish.wanted {
            return Held::Off;
        }
        if self.connection.is_none() {
            return Held::Off;
        }
        match wish.standing {
            WishStatus::NotAsked => Held::Off,
            WishStatus::Unanswered(_) => Held::Asked,
            WishStatus::Refused(rcode) => Held::Refused(rcode),
            WishStatus::Answered(_) => match self.mirror.set(question) {
                Some(set) => Held::Answered(set),
                None => Held::Off,
            },
        }
    }
}
