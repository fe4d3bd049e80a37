//! The names that a name ends in, from one to the root (RFC 1034, 3.1).

ghost use Rattle.std.specs.Prelude.{◌≡◌, ◌≤◌, ◌<◌, ◌^◌, length, List, OnOk};
ghost use Rattle.dnsname.specs.Names.{Labels};
ghost use Rattle.recordindex.specs.Endings.{Agrees, Exceeds, HasRoomFrom, IsLeft, IsLowLeft, Lacks, Reserves, room_of};

use crate::ending::{Endings, lower_at, raise_at, reserve_at};
use push_base::NoMemory;
use std::alloc::Global;

/// Makes a place for a name, and for each name that it ends in. At the first that is in use these are there already, at
/// it and at all that it ends in. Where memory runs out some are there, and nothing else changes.
pub(crate) fn reserve(alloc: Global, endings: &mut Endings, above: &[u8]) -> Result<(), NoMemory>
    requires { IsLowLeft above.now }
    ensures kept { Reserves endings.old.entries endings.new.entries }
    ensures room { OnOk result ((names : List Labels) → Agrees names endings.old.entries → HasRoomFrom above.now (room_of endings.new.entries)) }
{
    let mut rest = above;
    'ends: while !rest.is_empty() {
        if reserve_at(alloc, endings, rest)? {
            return Ok(());
        }
        let length = rest[0] as usize;
        (_, rest) = rest.split_at(length + 1);
    }
    Ok(())
}

/// A name is counted once more at what it is, and so on until a name was in use already. Says how many come into use.
pub(crate) fn raise(endings: &mut Endings, above: &[u8]) -> usize
    requires left { IsLeft above.now }
    requires room { HasRoomFrom above.now (room_of endings.old.entries) }
    requires few { length endings.old.entries < 2 ^ 63 }
    ensures counts { (names : List Labels) → length names ≤ 2 ^ 63 → Lacks above.now names endings.old.entries → Agrees names endings.new.entries }
    ensures room { room_of endings.new.entries ≡ room_of endings.old.entries }
{
    let mut used: usize = 0;
    let mut rest = above;
    'ends: while !rest.is_empty() {
        if raise_at(endings, rest) {
            return used;
        }
        used = used.saturating_add(1);
        let length = rest[0] as usize;
        (_, rest) = rest.split_at(length + 1);
    }
    used
}

/// A name is counted once less at what it is, and so on until a name is in use still. Says how many come out of use.
pub(crate) fn lower(endings: &mut Endings, above: &[u8]) -> usize
    requires { IsLeft above.now }
    ensures counts { (names : List Labels) → Exceeds above.now names endings.old.entries → Agrees names endings.new.entries }
    ensures room { room_of endings.new.entries ≡ room_of endings.old.entries }
{
    let mut unused: usize = 0;
    let mut rest = above;
    'ends: while !rest.is_empty() {
        if lower_at(endings, rest) {
            return unused;
        }
        unused = unused.saturating_add(1);
        let length = rest[0] as usize;
        (_, rest) = rest.split_at(length + 1);
    }
    unused
}
