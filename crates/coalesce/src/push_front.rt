//! How many names of a queue go into one PUSH (RFC 8765, 6.3).

ghost use Rattle.std.specs.Prelude.{◌≡◌, ◌+◌, ◌-◌, ◌≤◌, ◌++◌, ◌||◌, ◌==◌, drop, flat_map, length, nat_le};
ghost use Rattle.push_base.specs.Counted.{CountsUpTo};
ghost use Rattle.dsotlv.specs.Notices.{notice_octets};
ghost use Rattle.coalesce.specs.Laws.{all_notices};
ghost use Rattle.coalesce.specs.Net.{max_push, message_head, size_of_notices, push_frame, max_net_frame, max_net_size};
ghost use Rattle.coalesce.specs.Sides.{frame_octets};
ghost use Rattle.coalesce.specs.Waiting.{CanBePacked, names_waiting, nets_in, packed_of};

use crate::frame::Frame;
use crate::push_records::{FRAME_HEAD, MESSAGE_HEAD, append_head};
use crate::waiting::Waiting;
use dnsname::Name;
use indexmap::IndexMap;
use indexmap::map::Slice;
use nametable::Index;
use push_base::Steps;
use std::sync::ledger::Ledger;
use subscr::Subscriptions;

/// The most octets of a PUSH of several names. The number is this project's own.
const MAX_PUSH: u64 = 16_382;

/// The first names of a queue, and the octets of their records.
#[derive(Clone, Copy)]
pub(crate) struct Front {
    /// How many names go.
    pub names: usize,
    /// The octets of the records of their nets.
    pub size: u64,
}

/// Whether a net goes in behind so many octets of records.
fn fits(size: u64, more: u64) -> bool
    requires size { size ≤ max_net_size }
    requires more { more ≤ max_net_size }
    ensures { result ≡ (size == 0 || nat_le (message_head + size + more) max_push) }
{
    size == 0 || MESSAGE_HEAD + size + more <= MAX_PUSH
}

/// The names that go into one message, up to the first that doesn't fit.
pub(crate) fn front_of<L: Ledger>(
    names: Slice<Name, Waiting>,
    questions: &Subscriptions,
    index: &Index,
    steps: &mut Steps<L>,
) -> Front
    requires { CanBePacked index.now.rows (names_waiting names) }
    ensures names { result.names ≡ length names.entry - length (packed_of questions.now index.now.rows (names_waiting names.entry)).1 }
    ensures size { result.size ≡ size_of_notices (packed_of questions.now index.now.rows (names_waiting names.entry)).0 }
    ensures most { result.size ≤ max_net_size }
    ensures steps { CountsUpTo (length names.entry) steps.old steps.new }
{
    let count = names.len();
    let mut size: u64 = 0;
    let mut rest = names;
    'names: while let Some(((name, waiting), after)) = rest.split_first() {
        let more = waiting.size(name, questions, index, steps);
        if more > 0 {
            if !fits(size, more) {
                return Front {
                    names: count - rest.len(),
                    size,
                };
            }
            size += more;
        }
        rest = after;
    }
    Front { names: count, size }
}

/// Appends the records of all these names.
fn append_names<L: Ledger>(
    out: &mut Frame,
    names: Slice<Name, Waiting>,
    questions: &Subscriptions,
    index: &Index,
    steps: &mut Steps<L>,
)
    requires sides { CanBePacked index.now.rows (names_waiting names) }
    requires room { length out.old + size_of_notices (all_notices (nets_in questions.now index.now.rows (names_waiting names))) ≤ frame_octets }
    ensures written { out.new ≡ out.old ++ flat_map notice_octets (all_notices (nets_in questions.now index.now.rows (names_waiting names.entry))) }
    ensures steps { steps.new ≡ steps.old + length names.entry }
{
    let mut rest = names;
    'names: while let Some(((name, waiting), after)) = rest.split_first() {
        waiting.append_to(name, out, questions, index, steps);
        rest = after;
    }
}

/// Appends the PUSH of the first names, or nothing where they have nothing to tell, and gives its octets.
pub(crate) fn append_push<L: Ledger>(
    out: &mut Frame,
    names: Slice<Name, Waiting>,
    front: Front,
    questions: &Subscriptions,
    index: &Index,
    steps: &mut Steps<L>,
) -> usize
    requires sides { CanBePacked index.now.rows (names_waiting names) }
    requires names { front.names ≡ length names - length (packed_of questions.now index.now.rows (names_waiting names)).1 }
    requires size { front.size ≡ size_of_notices (packed_of questions.now index.now.rows (names_waiting names)).0 }
    requires most { front.size ≤ max_net_size }
    requires room { max_net_frame ≤ frame_octets - length out.old }
    ensures written { out.new ≡ out.old ++ push_frame (packed_of questions.now index.now.rows (names_waiting names.entry)).0 }
    ensures size { result ≡ length (push_frame (packed_of questions.now index.now.rows (names_waiting names.entry)).0) }
    ensures steps { CountsUpTo (length names.entry) steps.old steps.new }
{
    if front.size == 0 {
        return 0;
    }
    let size = front.size as usize;
    let (first, _) = names.split_at(front.names);
    append_head(out, size);
    append_names(out, first, questions, index, steps);
    FRAME_HEAD + size
}

/// Appends the PUSH of a name that waits alone, and gives its octets; where it has nothing to tell, nothing and 0.
pub(crate) fn append_lone<L: Ledger>(
    out: &mut Frame,
    names: Slice<Name, Waiting>,
    questions: &Subscriptions,
    index: &Index,
    steps: &mut Steps<L>,
) -> usize
    requires sides { CanBePacked index.now.rows (names_waiting names) }
    requires lone { length names ≡ 1 }
    requires room { max_net_frame ≤ frame_octets - length out.old }
    ensures written { out.new ≡ out.old ++ push_frame (packed_of questions.now index.now.rows (names_waiting names.entry)).0 }
    ensures size { result ≡ length (push_frame (packed_of questions.now index.now.rows (names_waiting names.entry)).0) }
    ensures steps { CountsUpTo 1 steps.old steps.new }
{
    match names.split_first() {
        Some(((name, waiting), _)) => waiting.append_push(name, out, questions, index, steps),
        None => 0,
    }
}

/// Takes the first names out.
pub(crate) fn drop_front(names: &mut IndexMap<Name, Waiting>, count: usize)
    requires { count ≤ length names.old.entries }
    ensures { names.new.entries ≡ drop count names.old.entries }
{
    for _gone in names.drain(..count) {}
}
