//! The serial of an SOA (RFC 1035, 3.3.13; RFC 1982), which rises with each change (RFC 2136, 3.6).

ghost use Rattle.std.specs.Prelude.{◌≡◌, ◌+◌, ◌++◌, Some, length, map, IfOk, IfSome, OnOk, IsTrue};
ghost use Rattle.std.specs.List.{list_all};
ghost use Rattle.rrset.specs.RecordSet.{shows_its_key, union};
ghost use Rattle.rrset.specs.Tables.{HaveLowerOwners};
ghost use Rattle.zoneupdate.specs.Zones.{serial_of, set_at, with_serial, serial_is_greater};
ghost use Rattle.zoneupdate.specs.Updates.{with_risen_serial};
ghost use Rattle.zoneupdate.specs.Changing.{numbers_place, serial_at, risen_entry, risen_rdata};

use crate::agreeing::have_same_rows;
use crate::sets::{first_of_rrset, is_of_rrset, take_set};
use dnsname::name::Octets;
use dnsname::{Name, plain_name_end};
use nametable::NameTable;
use rrset::kinds::SOA;
use rrset::{Key, NoMemory, Shown, Table, same_rows};
use std::alloc::Global;

/// The octets of the serial and the four times.
const NUMBERS: usize = 20;

/// The place of the numbers, after the two names.
fn numbers_place(rdata: &[u8]) -> Option<usize>
    ensures place { result ≡ numbers_place rdata.now }
    ensures within { IfSome result (λ place. place + 20 ≡ length rdata.now) }
{
    let after = plain_name_end(rdata, 0).ok()?;
    let place = plain_name_end(rdata, after).ok()?;
    if rdata.len() - place != NUMBERS {
        return None;
    }
    Some(place)
}

/// The serial that stands at the place of the numbers.
fn number_at(rdata: &[u8], place: usize) -> u32
    requires { numbers_place rdata.now ≡ Some place }
    ensures { serial_of rdata.now ≡ Some result }
{
    u32::from_be_bytes([
        rdata[place],
        rdata[place + 1],
        rdata[place + 2],
        rdata[place + 3],
    ])
}

/// The serial of SOA rdata.
pub(crate) fn serial_of(rdata: &[u8]) -> Option<u32>
    ensures { result ≡ serial_of rdata.now }
{
    let place = numbers_place(rdata)?;
    Some(number_at(rdata, place))
}

/// The serial of the SOA of a name.
pub(crate) fn serial_at(rows: &NameTable, name: &Name) -> Option<u32>
    ensures { result ≡ serial_at name.now rows.now.rows }
{
    match first_of_rrset(rows.at(name), name, SOA) {
        Some(shown) => serial_of(shown.rdata.as_slice()),
        None => None,
    }
}

/// SOA rdata with another serial, which stands at the place of the numbers.
fn with_serial(alloc: Global, serial: u32, rdata: &[u8], place: usize) -> Result<Octets, NoMemory>
    requires { numbers_place rdata.now ≡ Some place }
    ensures { IfOk result (λ octets. octets ≡ with_serial serial rdata.now) }
{
    let octets = joined(
        alloc,
        &rdata[..place],
        &serial.to_be_bytes(),
        &rdata[place + 4..],
    )?;
    Octets::shared(octets)
}

/// The octets of three parts, one behind the other.
fn joined(alloc: Global, front: &[u8], middle: &[u8], back: &[u8]) -> Result<Vec<u8>, NoMemory>
    ensures { IfOk result (λ octets. octets.items ≡ front.now ++ middle.now ++ back.now) }
{
    let room = front
        .len()
        .saturating_add(middle.len())
        .saturating_add(back.len());
    let mut octets = Vec::with_capacity(alloc, room)?;
    octets.extend_from_slice(front)?;
    octets.extend_from_slice(middle)?;
    octets.extend_from_slice(back)?;
    Ok(octets)
}

/// Whether a serial is greater than another (RFC 1982, 3.2). One that lies 2^31 behind it is not.
pub(crate) fn serial_is_greater(serial: u32, other: u32) -> bool
    ensures { result ≡ serial_is_greater serial other }
{
    serial != other && serial.wrapping_sub(other) < 1 << 31
}

/// SOA rdata with the serial that follows its own. Other rdata is given as it is.
fn risen_rdata(alloc: Global, rdata: &[u8]) -> Result<Octets, NoMemory>
    ensures { IfOk result (λ octets. octets ≡ risen_rdata rdata.now) }
{
    match numbers_place(rdata) {
        Some(place) => {
            let serial = number_at(rdata, place);
            with_serial(alloc, serial.wrapping_add(1), rdata, place)
        }
        None => Octets::from_slice(alloc, rdata),
    }
}

/// The rdata that is shown, with the serial that follows its own, where the key's has risen so. Most often both are the
/// same octets, which are shared then.
fn risen_shown(
    alloc: Global,
    key: &Octets,
    risen: &Octets,
    shown: &Octets,
) -> Result<Octets, NoMemory>
    requires { risen.now ≡ risen_rdata key.now }
    ensures { IfOk result (λ octets. octets ≡ risen_rdata shown.now) }
{
    if key.as_slice() == shown.as_slice() {
        return risen.copy();
    }
    risen_rdata(alloc, shown.as_slice())
}

/// An SOA with the serial that follows its own.
fn risen_entry(alloc: Global, entry: &(Key, Shown)) -> Result<(Key, Shown), NoMemory>
    ensures { IfOk result (λ risen. risen ≡ risen_entry entry.now) }
{
    let (key, shown) = entry;
    let key_rdata = risen_rdata(alloc, key.rdata.as_slice())?;
    let shown_rdata = risen_shown(alloc, &key.rdata, &key_rdata, &shown.rdata)?;
    let risen_key = Key {
        owner: key.owner.copy()?,
        class: key.class,
        kind: key.kind,
        rdata: key_rdata,
    };
    let risen_shown = Shown {
        owner: shown.owner.copy()?,
        ttl: shown.ttl,
        rdata: shown_rdata,
    };
    Ok((risen_key, risen_shown))
}

/// SOAs, each with the serial that follows its own.
pub(crate) fn risen_entries(
    alloc: Global,
    soas: &[(Key, Shown)],
) -> Result<Vec<(Key, Shown)>, NoMemory>
    ensures { IfOk result (λ risen. risen.items ≡ map risen_entry soas.now) }
{
    let mut risen = Vec::new(alloc);
    'soas: for soa in soas {
        risen.push(risen_entry(alloc, soa)?)?;
    }
    Ok(risen)
}

/// The SOAs of a name among some records, each with the serial that follows its own.
fn risen_soas(
    alloc: Global,
    name: &Name,
    entries: &[(Key, Shown)],
) -> Result<Vec<(Key, Shown)>, NoMemory>
    ensures { IfOk result (λ soas. soas.items ≡ map risen_entry (set_at name.now 6 entries.now)) }
{
    let mut soas = Vec::new(alloc);
    'entries: for entry in entries {
        if is_of_rrset(name, SOA, &entry.0) {
            soas.push(risen_entry(alloc, entry)?)?;
        }
    }
    Ok(soas)
}

/// Puts records into a table.
fn put_entries(work: &mut Table, entries: Vec<(Key, Shown)>) -> Result<(), NoMemory>
    requires { HaveLowerOwners entries.items }
    ensures { OnOk result (work.new.rows ≡ union work.old.rows entries.items) }
{
    'entries: for entry in entries {
        work.put(entry.0, entry.1)?;
    }
    Ok(())
}

/// Raises the serial by one, where records have changed and the SOA hasn't. Where memory runs out, the SOA may be
/// gone.
pub(crate) fn raise_serial(
    alloc: Global,
    apex: &Name,
    before: &Table,
    work: &mut Table,
) -> Result<(), NoMemory>
    requires { IsTrue (list_all shows_its_key work.old.rows) }
    ensures { OnOk result (work.new.rows ≡ with_risen_serial apex.now before.now.rows work.old.rows) }
{
    if same_rows(before.entries(), work.entries()) {
        return Ok(());
    }
    if !have_same_rows(apex, SOA, before.entries(), work.entries()) {
        return Ok(());
    }
    let soas = risen_soas(alloc, apex, work.entries())?;
    take_set(work, apex, SOA);
    put_entries(work, soas)
}
