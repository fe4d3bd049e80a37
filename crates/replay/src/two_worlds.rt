//! Two worlds side by side: that of the first hub, and that of the second, which is empty where a script has none.

ghost use Rattle.std.specs.Prelude.{◌≡◌, ◌++◌, ◌∷◌, List, Bool, IfOk, OnOk, option_to_list};
ghost use Rattle.replay.specs.TwoWorlds.{woven};

use crate::world::World;
use dnsname::Name;
use push_base::NoMemory;
use std::alloc::Global;
use std::collections::VecDeque;

/// The worlds of both hubs, and the order of their clients.
#[derive(Drop)]
pub struct Worlds {
    /// The first hub, its peers and its clients, and lone ones.
    pub near: World,
    /// The second hub and its clients.
    pub far: World,
    /// The name of the second hub's zone, where there is a second hub.
    pub apex: Option<Name>,
    /// Of each client in its order, whether it is one of the second hub.
    pub order: Vec<bool>,
}

/// Two lists as one: where the order has true, the next of the second, if there is one, and else that of the first. What is
/// left of either stands behind.
pub(crate) fn woven<T: Drop>(
    alloc: Global,
    order: &[bool],
    near: Vec<T>,
    far: Vec<T>,
) -> Result<Vec<T>, NoMemory>
    ensures { IfOk result (λ all. all.items ≡ woven order.now near.items far.items) }
{
    let mut near = VecDeque::from(near);
    let mut far = VecDeque::from(far);
    let mut all = Vec::new(alloc);
    'turns: for is_far in order {
        let next = next_of(*is_far, &mut near, &mut far);
        put_if(&mut all, next)?;
    }
    put_all(&mut all, near)?;
    put_all(&mut all, far)?;
    Ok(all)
}

// The next of one of two lists, which is taken off, if there is one.
fn next_of<T: Drop>(is_far: bool, near: &mut VecDeque<T>, far: &mut VecDeque<T>) -> Option<T>
    ensures { (order : List Bool) → woven (is_far ∷ order) near.old.items far.old.items ≡ option_to_list result ++ woven order near.new.items far.new.items }
{
    if is_far {
        far.pop_front()
    } else {
        near.pop_front()
    }
}

// Puts one at the end, if there is one.
fn put_if<T: Drop>(all: &mut Vec<T>, next: Option<T>) -> Result<(), NoMemory>
    ensures { OnOk result (all.new.items ≡ all.old.items ++ option_to_list next) }
{
    match next {
        Some(one) => {
            all.push(one)?;
            Ok(())
        }
        None => Ok(()),
    }
}

// Puts all at the end.
fn put_all<T: Drop>(all: &mut Vec<T>, rest: VecDeque<T>) -> Result<(), NoMemory>
    ensures { OnOk result (all.new.items ≡ all.old.items ++ rest.items) }
{
    'each: for one in rest {
        all.push(one)?;
    }
    Ok(())
}
