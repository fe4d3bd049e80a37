//! The net of a name that waits.

ghost use Rattle.std.specs.Prelude.{◌≡◌, ◌+◌, ◌-◌, ◌≤◌, ◌++◌, length, flat_map, IsTrue};
ghost use Rattle.dsotlv.specs.Notices.{notice_octets};
ghost use Rattle.coalesce.specs.Laws.{can_be_sent};
ghost use Rattle.coalesce.specs.Net.{max_net_frame, net, net_frame, owner_of, size_of_notices};
ghost use Rattle.coalesce.specs.Sides.{AreOfOneName, frame_octets};
ghost use Rattle.coalesce.specs.Steps.{notices_as};
ghost use Rattle.coalesce.specs.Touched.{AreSides, new_rows, old_rows};

use crate::form::{Form, Plan, append_notices, owner, shorter_form};
use crate::frame::Frame;
use crate::push_records::{FRAME_HEAD, append_head};
use crate::removing::{append_removals, removals_size};
use crate::side::Side;
use crate::touched::{Touched, append_came, came_size, gone_records, is_same, new_side, old_side};
use dnsname::Name;

/// The form of the net.
fn plan_of(name: &Name, touched: &Touched, old: &Side, new: &Side) -> Plan
    requires touched { AreSides touched.now }
    requires old { old.now ≡ old_rows touched.now }
    requires new { new.now ≡ new_rows touched.now }
    requires sent { IsTrue (can_be_sent new.now) }
    requires name { name.now ≡ owner_of (old.now ++ new.now) }
    requires sides { AreOfOneName old.now new.now }
    ensures form { notices_as result.form name.now old.now new.now ≡ net old.now new.now }
    ensures size { result.size ≡ size_of_notices (net old.now new.now) }
{
    if is_same(touched) {
        return Plan {
            form: Form::Empty,
            size: 0,
        };
    }
    let removals = removals_size(name, gone_records(touched), new);
    let single = removals.saturating_add(came_size(touched));
    shorter_form(name, old, new, single)
}

/// Appends the records of the net in a form.
fn append_form(out: &mut Frame, form: Form, name: &Name, touched: &Touched, old: &Side, new: &Side)
    requires touched { AreSides touched.now }
    requires old { old.now ≡ old_rows touched.now }
    requires new { new.now ≡ new_rows touched.now }
    requires room { length out.old + size_of_notices (notices_as form name.now old.now new.now) ≤ frame_octets }
    ensures { out.new ≡ out.old ++ flat_map notice_octets (notices_as form name.now old.now new.now) }
{
    match form {
        Form::Single => {
            append_removals(out, name, gone_records(touched), new);
            append_came(out, touched);
        }
        Form::Empty | Form::OneKind(_) | Form::AllKinds | Form::Anew => {
            append_notices(out, form, name, old, new);
        }
    }
}

/// The octets of the net's records.
pub(crate) fn net_size(touched: &Touched) -> u64
    requires touched { AreSides touched.now }
    requires sides { AreOfOneName (old_rows touched.now) (new_rows touched.now) }
    requires sent { IsTrue (can_be_sent (new_rows touched.now)) }
    ensures size { result ≡ size_of_notices (net (old_rows touched.now) (new_rows touched.now)) }
{
    let old = old_side(touched);
    let new = new_side(touched);
    match owner(&old, &new) {
        Some(name) => plan_of(name, touched, &old, &new).size,
        None => 0,
    }
}

/// Appends the net's records.
pub(crate) fn append_net(out: &mut Frame, touched: &Touched)
    requires touched { AreSides touched.now }
    requires sides { AreOfOneName (old_rows touched.now) (new_rows touched.now) }
    requires sent { IsTrue (can_be_sent (new_rows touched.now)) }
    requires room { length out.old + size_of_notices (net (old_rows touched.now) (new_rows touched.now)) ≤ frame_octets }
    ensures { out.new ≡ out.old ++ flat_map notice_octets (net (old_rows touched.now) (new_rows touched.now)) }
{
    let old = old_side(touched);
    let new = new_side(touched);
    if let Some(name) = owner(&old, &new) {
        let plan = plan_of(name, touched, &old, &new);
        append_form(out, plan.form, name, touched, &old, &new);
    }
}

/// Appends the PUSH of the net, and gives its octets; where nothing is to be told, nothing and 0.
pub(crate) fn append_push(out: &mut Frame, touched: &Touched) -> usize
    requires touched { AreSides touched.now }
    requires sides { AreOfOneName (old_rows touched.now) (new_rows touched.now) }
    requires sent { IsTrue (can_be_sent (new_rows touched.now)) }
    requires room { max_net_frame ≤ frame_octets - length out.old }
    ensures written { out.new ≡ out.old ++ net_frame (old_rows touched.now) (new_rows touched.now) }
    ensures size { result ≡ length (net_frame (old_rows touched.now) (new_rows touched.now)) }
{
    let old = old_side(touched);
    let new = new_side(touched);
    let Some(name) = owner(&old, &new) else {
        return 0;
    };
    let plan = plan_of(name, touched, &old, &new);
    if plan.size == 0 {
        return 0;
    }
    let size = plan.size as usize;
    append_head(out, size);
    append_form(out, plan.form, name, touched, &old, &new);
    FRAME_HEAD + size
}
