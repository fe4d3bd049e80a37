//! Replies to queries, from the records at the newest point (RFC 1034, 4.3.2).

ghost use Rattle.std.specs.Prelude.{◌≡◌, ℕ, ◌≤◌, [], Some, length, IfOk, OnErr, OnOk};
ghost use Rattle.rrset.specs.Header.{header_octets};
ghost use Rattle.dnsquery.specs.Replies.{max_reply, reply_to};
ghost use Rattle.history.specs.Kept.{state_now as past_state};
ghost use Rattle.history.specs.States.{records};
ghost use Rattle.pushserver.specs.Giving.{known_at};
ghost use Rattle.pushserver.specs.Rows.{AreTold};
ghost use Rattle.pushsession.specs.Requests.{message_of, replied, request_of};
ghost use Rattle.pushsession.specs.Watched.{Rewatches};
ghost use Rattle.pushsession.specs.declared.request.Request.TheVariants as requests;
ghost use Rattle.subscr.specs.Watching.{Watching};

use dnsname::Name;
use dnsquery::{Lookup, USUAL_REPLY, write_reply_to};
use history::{Homes, Points};
use pushsession::{NoMemory, PushSession};
use recordindex::RecordIndex;
use rrset::{Key, Shown};
use std::alloc::Global;

/// The homes, and an index of all records.
#[derive(Clone, Copy)]
struct Known<'a> {
    homes: &'a Homes,
    index: &'a RecordIndex,
}

impl Lookup for Known<'_> {
    ghost use Rattle.std.specs.Prelude.{is_some};
    ghost use Rattle.history.specs.Kept.{state_of};
    ghost use Rattle.history.specs.States.{home_of};

    ghost known = { λ k. record { has_home = λ name. is_some (home_of (state_of k.homes.now) name); records = k.index.now.rows } };

    fn home(&self, name: &Name) -> bool {
        self.homes.home(name).is_some()
    }

    fn at(&self, name: &Name) -> &[(Key, Shown)] {
        self.index.index().table().at(name)
    }

    fn below(&self, name: &Name) -> bool {
        self.index.below(name)
    }
}

/// The reply to a message, from the records of an index.
fn reply_at(
    alloc: Global,
    points: &Points,
    index: &RecordIndex,
    message: &[u8],
) -> Result<Vec<u8>, NoMemory>
    requires header { header_octets ≤ length message.now }
    requires told { AreTold index.now.rows }
    ensures octets { IfOk result (λ reply. index.now.rows ≡ records (past_state points.now.past) → reply.items ≡ reply_to (known_at (past_state points.now.past)) message.now) }
    ensures size { IfOk result (λ reply. length reply.items ≤ max_reply) }
{
    let known = Known {
        homes: points.homes(),
        index,
    };
    // Its clauses say that all rows are in key order.
    index.index().table().blocks();
    let mut reply = Vec::with_capacity(alloc, USUAL_REPLY)?;
    write_reply_to(alloc, message, &known, &mut reply)?;
    Ok(reply)
}

/// A session replies to its first message, which is a query. Where memory runs out nothing changes.
pub(crate) fn answer_query(
    session: &mut PushSession,
    alloc: Global,
    points: &Points,
    index: &RecordIndex,
) -> Result<(), NoMemory>
    requires silent { session.old.output ≡ [] }
    requires request { request_of session.old ≡ Some requests.Query }
    requires told { AreTold index.now.rows }
    ensures ok { OnOk result (index.now.rows ≡ records (past_state points.now.past) → session.new ≡ replied (reply_to (known_at (past_state points.now.past)) (message_of session.old)) (past_state points.now.past).now session.old) }
    ensures err { OnErr result (session.new ≡ session.old) }
    ensures watched { (number : ℕ) (watching : Watching) → Rewatches number watching watching session.old session.new }
{
    let reply = reply_at(alloc, points, index, session.message())?;
    session.answer_query(&reply, points.now());
    Ok(())
}
