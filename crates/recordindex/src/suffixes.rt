//! Which names owners end in properly.

ghost use Rattle.std.specs.Prelude.{◌≡◌, ◌≤◌, ◌<◌, ◌^◌, [], ◌∷◌, List, get_or, map, take, length, ◌+◌, ◌-◌, OnOk};
ghost use Rattle.std.specs.Char.{to_ascii_lowercase};
ghost use Rattle.std.specs.List.{list_any};
ghost use Rattle.dnsname.specs.Names.{Labels, ends_in, lower};
ghost use Rattle.recordindex.specs.Endings.{Agrees, AreCounted, AreLow, AreLowerNames, HasRoomFor, Reserves, above_of, names_above, room_of};

use crate::ending::{Endings, drop_unused};
use crate::walking::{lower, raise, reserve};
use dnsname::{MAX_NAME, Name};
use push_base::NoMemory;
use std::alloc::Global;
use std::collections::BTreeMap;
use std::marker::Model;

/// Of so many places one may be unused when they are swept.
const PLACES_PER_UNUSED: usize = 8;

/// The octets with ASCII letters in lower case, at the front of others.
fn write_in_lower_case(octets: &[u8], out: &mut [u8])
    requires { length octets.now ≤ length out.old }
    ensures lower { take (length octets.now) out.new ≡ map to_ascii_lowercase octets.now }
    ensures length { length out.new ≡ length out.old }
{
    'octets: for index in 0..octets.len() {
        out[index] = octets[index].to_ascii_lowercase();
    }
}

/// What is left of a name's octets behind the first label: none of the root's.
fn above(spelled: &[u8]) -> &[u8]
    requires { get_or spelled.now 0 0 + 1 ≤ length spelled.now }
    ensures { result.now ≡ above_of spelled.now }
{
    let length = spelled[0] as usize;
    let (_, rest) = spelled.split_at(length + 1);
    rest
}

/// Makes room for an owner.
fn reserve_owner(alloc: Global, endings: &mut Endings, owner: &Name) -> Result<(), NoMemory>
    requires { lower owner.now ≡ owner.now }
    ensures kept { Reserves endings.old.entries endings.new.entries }
    ensures room { OnOk result ((names : List Labels) → Agrees names endings.old.entries → HasRoomFor owner.now (room_of endings.new.entries)) }
{
    reserve(alloc, endings, above(owner.octets()))
}

/// A name, for which there is room, is an owner once more. Says in how many names none ended before.
fn put_owner(endings: &mut Endings, owner: &Name) -> usize
    requires room { HasRoomFor owner.now (room_of endings.old.entries) }
    ensures counts { (owners : List Labels) → length owners < 2 ^ 63 → Agrees (names_above owners) endings.old.entries → Agrees (names_above (owner.now ∷ owners)) endings.new.entries }
    ensures room { room_of endings.new.entries ≡ room_of endings.old.entries }
{
    // Its clauses say that there are fewer than 2^63 places.
    endings.len();
    raise(endings, above(owner.octets()))
}

/// A name is an owner once less. Says in how many names none ends any more.
fn remove_owner(endings: &mut Endings, owner: &Name) -> usize
    ensures counts { (owners : List Labels) → Agrees (names_above (owner.now ∷ owners)) endings.old.entries → Agrees (names_above owners) endings.new.entries }
    ensures room { room_of endings.new.entries ≡ room_of endings.old.entries }
{
    lower(endings, above(owner.octets()))
}

/// Gives back the places in which no owner ends.
fn sweep(endings: &mut Endings)
    requires { AreLowerNames endings.old.entries }
    ensures low { AreLowerNames endings.new.entries }
    ensures counts { (names : List Labels) → Agrees names endings.old.entries → Agrees names endings.new.entries }
{
    // Its clauses say that the places are in the order of their octets.
    endings.len();
    drop_unused(endings);
}

/// Whether an owner ends properly in a name.
fn below_in(endings: &Endings, name: &Name) -> bool
    requires { AreLowerNames endings.now.entries }
    ensures { (names : List Labels) → AreLow names → Agrees names endings.now.entries → result ≡ list_any (λ above. ends_in above name.now) names }
{
    // Its clauses say that the places are in the order of their octets.
    endings.len();
    let spelled = name.octets();
    let mut octets = [0; MAX_NAME];
    write_in_lower_case(spelled, &mut octets);
    let (lower, _) = octets.split_at(spelled.len());
    match endings.get(lower) {
        Some(count) => *count > 0,
        None => false,
    }
}

/// The names that owners end in properly. At each are counted the owners with a label more, as often as they were put,
/// and the names with one in which owners end properly, so that a call walks no further than to a name in which another
/// owner ends, and a question costs one look-up. An owner itself has no place, so that names without others below them
/// take none. All owners are in lower case.
#[derive(Debug, Drop)]
pub(crate) struct Suffixes {
    alloc: Global,
    endings: Endings,
    owners: usize,
    // How many places are unused: each is made so, or came out of use, and didn't come into use since. Contracts don't
    // see it.
    unused: usize,
}

impl Model for Suffixes {
    ghost use Rattle.recordindex.specs.Endings.{AreLowerNames, SuffixesState, room_of};

    ghost Value = { SuffixesState };

    ghost view = { λ s. record { kept = s.endings.entries; total = s.owners } };

    ghost invariant = { λ s. AreLowerNames s.endings.entries };
}

impl Suffixes {
    /// No owners.
    pub(crate) fn new(alloc: Global) -> Self
        ensures { AreCounted [] result }
    {
        Suffixes {
            alloc,
            endings: BTreeMap::new(alloc),
            owners: 0,
            unused: 0,
        }
    }

    /// How many owners there are, each as often as it was put.
    pub(crate) fn len(&self) -> usize
        ensures { result ≡ self.now.total }
    {
        self.owners
    }

    /// Makes room for an owner, so that a put of it takes no memory.
    pub(crate) fn reserve_for(&mut self, owner: &Name) -> Result<(), NoMemory>
        requires { lower owner.now ≡ owner.now }
        ensures owners { (owners : List Labels) → AreCounted owners self.old → AreCounted owners self.new }
        ensures total { self.new.total ≡ self.old.total }
        ensures room { OnOk result ((owners : List Labels) → AreCounted owners self.old → HasRoomFor owner.now (room_of self.new.kept)) }
        ensures kept { (name : Labels) → HasRoomFor name (room_of self.old.kept) → HasRoomFor name (room_of self.new.kept) }
    {
        let before = self.endings.len();
        let made = reserve_owner(self.alloc, &mut self.endings, owner);
        let more = self.endings.len().saturating_sub(before);
        self.unused = self.unused.saturating_add(more);
        made
    }

    /// A name is an owner once more. It takes no memory.
    pub(crate) fn put(&mut self, owner: &Name)
        requires room { HasRoomFor owner.now (room_of self.old.kept) }
        requires few { self.old.total < 2 ^ 63 }
        ensures owners { (owners : List Labels) → AreCounted owners self.old → AreCounted (owner.now ∷ owners) self.new }
        ensures total { self.new.total ≡ self.old.total + 1 }
        ensures room { room_of self.new.kept ≡ room_of self.old.kept }
    {
        let used = put_owner(&mut self.endings, owner);
        self.unused = self.unused.saturating_sub(used);
        self.owners += 1;
    }

    /// A name that is an owner is it once less; of others nothing is said. It takes no memory, and leaves the room for
    /// it.
    pub(crate) fn remove(&mut self, owner: &Name)
        ensures owners { (owners : List Labels) → AreCounted (owner.now ∷ owners) self.old → AreCounted owners self.new }
        ensures total { self.new.total ≤ self.old.total }
        ensures room { room_of self.new.kept ≡ room_of self.old.kept }
    {
        let unused = remove_owner(&mut self.endings, owner);
        self.unused = self.unused.saturating_add(unused);
        self.owners = self.owners.saturating_sub(1);
    }

    /// Whether an owner ends properly in a name, by one look-up (RFC 8020, 2).
    pub(crate) fn below(&self, name: &Name) -> bool
        ensures { (owners : List Labels) → AreLow owners → AreCounted owners self.now → result ≡ list_any (λ above. ends_in above name.now) (names_above owners) }
    {
        below_in(&self.endings, name)
    }

    /// Gives back the room of names in which no owner ends, once these are more than one of eight. To be called
    /// where no plan is pending, since room that was made may be lost. It takes no memory.
    pub(crate) fn give_back(&mut self)
        ensures owners { (owners : List Labels) → AreCounted owners self.old → AreCounted owners self.new }
        ensures total { self.new.total ≡ self.old.total }
    {
        if self.unused <= self.endings.len() / PLACES_PER_UNUSED {
            return;
        }
        sweep(&mut self.endings);
        self.unused = 0;
    }
}
