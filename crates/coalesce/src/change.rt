//! The net change of a name (RFC 8765, 6.3.1).

ghost use Rattle.std.specs.Prelude.{◌≡◌, ◌-◌, ◌≤◌, ◌++◌, length, IsTrue};
ghost use Rattle.coalesce.specs.Laws.{can_be_sent};
ghost use Rattle.coalesce.specs.Net.{net_frame, max_net_frame};
ghost use Rattle.coalesce.specs.Sides.{AreOfOneName, frame_octets};

use crate::form::{append_notices, owner, plan_of};
use crate::frame::Frame;
use crate::push_records::{FRAME_HEAD, append_head};
use crate::side::Side;
use rrset::{Key, Shown};

/// Appends the frame that leads from the old records of a name to the new ones, and gives its octets; where nothing is
/// to be told, nothing and 0. It has at most 60,283 octets, and takes no memory.
pub fn net<'a>(old: &'a [(Key, Shown)], new: &'a [(Key, Shown)], out: &mut Frame) -> usize
    requires sides { AreOfOneName old.now new.now }
    requires sent { IsTrue (can_be_sent new.now) }
    requires room { max_net_frame ≤ frame_octets - length out.old }
    ensures written { out.new ≡ out.old ++ net_frame old.now new.now }
    ensures size { result ≡ length (net_frame old.now new.now) }
{
    let old = Side::new(old);
    let new = Side::new(new);
    let Some(name) = owner(&old, &new) else {
        return 0;
    };
    let plan = plan_of(name, &old, &new);
    if plan.size == 0 {
        return 0;
    }
    let size = plan.size as usize;
    append_head(out, size);
    append_notices(out, plan.form, name, &old, &new);
    FRAME_HEAD + size
}
