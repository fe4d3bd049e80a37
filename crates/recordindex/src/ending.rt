//! How many names are counted at a name, and the changes of that.

ghost use Rattle.std.specs.Prelude.{◌≡◌, ◌+◌, ◌<◌, ◌^◌, true, IfOk, OnOk, filter};
ghost use Rattle.recordindex.specs.Endings.{IsLowerName, Reserves, changed_at, counted_at, is_among, is_used, once_less, once_more, room_of, used_at};

use push_base::NoMemory;
use std::alloc::Global;
use std::collections::BTreeMap;

/// How many names with a label more are counted at each name, by its octets in lower case. It is in use where some are.
pub(crate) type Endings = BTreeMap<Vec<u8>, usize>;

/// Makes a place for a name, and says whether it is in use.
pub(crate) fn reserve_at(
    alloc: Global,
    endings: &mut Endings,
    name: &[u8],
) -> Result<bool, NoMemory>
    requires { IsLowerName name.now }
    ensures kept { Reserves endings.old.entries endings.new.entries }
    ensures room { OnOk result (is_among name.now (room_of endings.new.entries) ≡ true) }
    ensures counted { IfOk result (λ is. is ≡ used_at name.now endings.old.entries) }
{
    match endings.get(name) {
        Some(count) => return Ok(*count > 0),
        None => {}
    }
    let octets = Vec::from_slice(alloc, name)?;
    endings.insert(octets, 0)?;
    Ok(false)
}

/// One more name with a label more is counted. Says whether this one was in use already.
pub(crate) fn raise_at(endings: &mut Endings, name: &[u8]) -> bool
    ensures entries { counted_at name.now endings.old.entries + 1 < 2 ^ 64 → endings.new.entries ≡ changed_at name.now once_more endings.old.entries }
    ensures was { result ≡ used_at name.now endings.old.entries }
    ensures room { room_of endings.new.entries ≡ room_of endings.old.entries }
{
    match endings.get_mut(name) {
        Some(count) => {
            let was = *count > 0;
            *count = count.saturating_add(1);
            was
        }
        None => false,
    }
}

/// One name less with a label more is counted. Says whether this one is in use still.
pub(crate) fn lower_at(endings: &mut Endings, name: &[u8]) -> bool
    ensures entries { endings.new.entries ≡ changed_at name.now once_less endings.old.entries }
    ensures is { result ≡ used_at name.now endings.new.entries }
{
    match endings.get_mut(name) {
        Some(count) => {
            *count = count.saturating_sub(1);
            *count > 0
        }
        None => false,
    }
}

/// Gives back the places that aren't in use.
pub(crate) fn drop_unused(endings: &mut Endings)
    ensures { endings.new.entries ≡ filter (λ e. is_used e.1) endings.old.entries }
{
    endings.retain(|_, count| *count > 0);
}
