//! What follows the answer to a SUBSCRIBE (RFC 8765, 6.2.2).

ghost use Rattle.std.specs.Prelude.{◌≡◌, ◌+◌, ◌-◌, ◌≤◌, ◌++◌, length, map, IsTrue};
ghost use Rattle.std.specs.Char.{to_ascii_lowercase};
ghost use Rattle.dnsname.specs.Names.{lower};
ghost use Rattle.rrset.specs.Kinds.{in_class};
ghost use Rattle.dsotlv.specs.Notices.{notice_octets};
ghost use Rattle.dsotlv.specs.declared.message.Notice.TheVariants.{RemoveClass};
ghost use Rattle.subscr.specs.Asked.{wants};
ghost use Rattle.coalesce.specs.FirstAnswers.{told_first};
ghost use Rattle.coalesce.specs.Laws.{can_be_sent};
ghost use Rattle.coalesce.specs.Net.{additions, all_anew, push_frame, max_net_frame};
ghost use Rattle.coalesce.specs.Sides.{IsOneSide, frame_octets};

use crate::adding::{all_size, append_all};
use crate::frame::Frame;
use crate::push_records::{FRAME_HEAD, Fields, append_fields, append_head, record_size};
use crate::side::Side;
use dnsname::Name;
use dsotlv::ttls::REMOVE_MANY;
use rrset::classes::IN;
use rrset::kinds::ANY;
use rrset::{Key, Question, Shown};
use subscr::Subscriptions;

/// Appends octets with ASCII letters in lower case.
fn append_lower(out: &mut Frame, octets: &[u8])
    requires room { length out.old + length octets.now ≤ frame_octets }
    ensures { out.new ≡ out.old ++ map to_ascii_lowercase octets.now }
{
    'octets: for octet in octets {
        out.append(&[octet.to_ascii_lowercase()]);
    }
}

/// Appends the removal of all records of class IN at a name, which is written in lower case.
fn append_class_gone(out: &mut Frame, name: &Name)
    requires room { length out.old + length (notice_octets (RemoveClass (lower name.now) in_class)) ≤ frame_octets }
    ensures { out.new ≡ out.old ++ notice_octets (RemoveClass (lower name.now) in_class) }
{
    let fields = Fields {
        kind: ANY,
        class: IN,
        ttl: REMOVE_MANY,
    };
    append_lower(out, name.octets());
    append_fields(out, fields, &[]);
}

/// Appends the PUSH that takes all records of a name away and tells these anew, and gives its octets.
fn append_anew(out: &mut Frame, name: &Name, records: &Side) -> usize
    requires sent { IsTrue (can_be_sent records.now) }
    requires room { max_net_frame ≤ frame_octets - length out.old }
    ensures written { out.new ≡ out.old ++ push_frame (all_anew (lower name.now) records.now) }
    ensures size { result ≡ length (push_frame (all_anew (lower name.now) records.now)) }
{
    let size = (record_size(name, &[]) + all_size(records)) as usize;
    append_head(out, size);
    append_class_gone(out, name);
    append_all(out, records);
    FRAME_HEAD + size
}

/// Appends the PUSH that tells these records, and gives its octets; nothing and 0 where there are none.
fn append_records(out: &mut Frame, records: &Side) -> usize
    requires sent { IsTrue (can_be_sent records.now) }
    requires room { max_net_frame ≤ frame_octets - length out.old }
    ensures written { out.new ≡ out.old ++ push_frame (additions records.now) }
    ensures size { result ≡ length (push_frame (additions records.now)) }
{
    let size = all_size(records) as usize;
    if size == 0 {
        return 0;
    }
    append_head(out, size);
    append_all(out, records);
    FRAME_HEAD + size
}

/// Appends the PUSH that follows the answer to a SUBSCRIBE, where the name has these records, and gives its octets;
/// nothing and 0 where there is nothing to tell.
pub(crate) fn append_first<'a>(
    out: &mut Frame,
    rows: &'a [(Key, Shown)],
    question: &'a Question,
    questions: &'a Subscriptions,
    changed: bool,
) -> usize
    requires side { IsOneSide rows.now }
    requires sent { IsTrue (can_be_sent rows.now) }
    requires room { max_net_frame ≤ frame_octets - length out.old }
    ensures written { out.new ≡ out.old ++ push_frame (told_first changed question.now (λ key. wants key questions.now) rows.now) }
    ensures size { result ≡ length (push_frame (told_first changed question.now (λ key. wants key questions.now) rows.now)) }
{
    if changed {
        let wanted = Side::matching_or_asked(rows, question, questions);
        append_anew(out, &question.name, &wanted)
    } else {
        let matching = Side::matching(rows, question);
        append_records(out, &matching)
    }
}
