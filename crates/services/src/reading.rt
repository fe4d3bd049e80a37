//! What single records say of services.

ghost use Rattle.std.specs.Prelude.{◌≡◌, ◌++◌, IfOk, OnOk};
ghost use Rattle.services.specs.Services.{better, instance_of, is_before, name_from, rdata_of, server_in, server_of, target_at};

use crate::lists::Rdatas;
use crate::service::Server;
use dnsname::{Name, NameFault};
use push_base::NoMemory;
use rrset::kinds::{PTR, SRV};
use rrset::record::{Key, Shown};
use std::alloc::Global;

// The name that stands at a place of rdata, if one does.
fn name_from(alloc: Global, place: usize, rdata: &[u8]) -> Result<Option<Name>, NoMemory>
    ensures { IfOk result (λ name. name ≡ name_from place rdata.now) }
{
    match Name::read_plain(alloc, rdata, place) {
        Ok((name, _)) => Ok(Some(name)),
        Err(NameFault::NoMemory) => Err(NoMemory),
        Err(
            NameFault::Short(_)
            | NameFault::LongLabel(_)
            | NameFault::Pointer(_)
            | NameFault::TooLong(_),
        ) => Ok(None),
    }
}

/// The instance to which a record points, if it is a PTR record (RFC 6763, 4.1).
pub(crate) fn instance_of(alloc: Global, row: &(Key, Shown)) -> Result<Option<Name>, NoMemory>
    ensures { IfOk result (λ name. name ≡ instance_of row.now) }
{
    if row.0.kind != PTR {
        return Ok(None);
    }
    name_from(alloc, 0, row.1.rdata.as_slice())
}

// The server of rdata with six octets at least (RFC 2782).
fn server_at(alloc: Global, rdata: &[u8]) -> Result<Option<Server>, NoMemory>
    ensures { IfOk result (λ server. server ≡ target_at rdata.now) }
{
    let [a, b, c, d, e, f, ..] = *rdata else {
        return Ok(None);
    };
    match name_from(alloc, 6, rdata)? {
        None => Ok(None),
        Some(host) => Ok(Some(Server {
            priority: u16::from_be_bytes([a, b]),
            weight: u16::from_be_bytes([c, d]),
            port: u16::from_be_bytes([e, f]),
            host,
        })),
    }
}

// The server that a record names, if it is an SRV record.
fn server_of(alloc: Global, row: &(Key, Shown)) -> Result<Option<Server>, NoMemory>
    ensures { IfOk result (λ server. server ≡ server_of row.now) }
{
    if row.0.kind != SRV {
        return Ok(None);
    }
    server_at(alloc, row.1.rdata.as_slice())
}

// Whether the second comes before the first (RFC 2782).
fn is_before(first: &Server, second: &Server) -> bool
    ensures { result ≡ is_before first.now second.now }
{
    second.priority < first.priority
        || (second.priority == first.priority && first.weight < second.weight)
}

// The better one of two servers, the first where they are alike.
fn better(first: Option<Server>, second: Option<Server>) -> Option<Server>
    ensures { result ≡ better first second }
{
    match first {
        None => second,
        Some(one) => match second {
            None => Some(one),
            Some(other) => {
                if is_before(&one, &other) {
                    Some(other)
                } else {
                    Some(one)
                }
            }
        },
    }
}

/// The server that records name: that of least priority, then of greatest weight, then the first (RFC 2782).
pub(crate) fn server_in(alloc: Global, rows: &[(Key, Shown)]) -> Result<Option<Server>, NoMemory>
    ensures { IfOk result (λ server. server ≡ server_in rows.now) }
{
    let mut best = None;
    'rows: for row in rows {
        let server = server_of(alloc, row)?;
        best = better(best, server);
    }
    Ok(best)
}

/// Appends the rdata of the records of a kind.
pub(crate) fn push_rdata(out: &mut Rdatas, kind: u16, rows: &[(Key, Shown)]) -> Result<(), NoMemory>
    ensures { OnOk result (out.new ≡ out.old ++ rdata_of kind rows.now) }
{
    'rows: for row in rows {
        if row.0.kind == kind {
            let rdata = row.1.rdata.copy()?;
            out.push(rdata)?;
        }
    }
    Ok(())
}
