//! How two lists of services differ.

ghost use Rattle.std.specs.Prelude.{◌≡◌, ◌++◌, find, None, Some, MatchOption, IfOk, OnOk};
ghost use Rattle.rrset.specs.Records.{same_octets};
ghost use Rattle.services.specs.Services.{changes, gone_from, is_for, news_of, news_to, same_one, same_rdatas, same_server, same_service, went_from};

use crate::lists::{Changes, Rdatas, Services};
use crate::service::{Change, Server, Service};
use dnsname::Name;
use push_base::NoMemory;
use std::alloc::Global;

// Whether two runs of octets are one.
fn same_octets(first: &[u8], second: &[u8]) -> bool
    ensures { result ≡ same_octets first.now second.now }
{
    first == second
}

// Whether two lists of rdata are one.
fn same_rdatas(first: &Rdatas, second: &Rdatas) -> bool
    ensures { result ≡ same_rdatas first.now second.now }
{
    let (first, second) = (first.as_slice(), second.as_slice());
    if first.len() != second.len() {
        return false;
    }
    'rdatas: for index in 0..first.len() {
        if !same_octets(first[index].as_slice(), second[index].as_slice()) {
            return false;
        }
    }
    true
}

// Whether two servers are one, to the letter.
fn same_one(first: &Server, second: &Server) -> bool
    ensures { result ≡ same_one first.now second.now }
{
    first.priority == second.priority
        && first.weight == second.weight
        && first.port == second.port
        && same_octets(first.host.octets(), second.host.octets())
}

// Whether two servers are one, or there is none.
fn same_server(first: &Option<Server>, second: &Option<Server>) -> bool
    ensures { result ≡ same_server first.now second.now }
{
    match (first, second) {
        (Some(first), Some(second)) => same_one(first, second),
        (None, None) => true,
        _ => false,
    }
}

// Whether all that is known of two services is one, to the letter.
fn same_service(first: &Service, second: &Service) -> bool
    ensures { result ≡ same_service first.now second.now }
{
    same_octets(first.instance.octets(), second.instance.octets())
        && same_server(&first.server, &second.server)
        && same_rdatas(&first.addresses, &second.addresses)
        && same_rdatas(&first.texts, &second.texts)
}

// The service of an instance.
fn service_for<'a>(list: &'a [Service], instance: &Name) -> Option<&'a Service>
    ensures { MatchOption result (find (is_for instance.now) list.now ≡ None) (λ s. find (is_for instance.now) list.now ≡ Some s.now) }
{
    'services: for service in list {
        if service.instance.same(instance) {
            return Some(service);
        }
    }
    None
}

// What became of a service of the old list, if it isn't in the new one.
fn went_from(new: &[Service], service: &Service) -> Result<Option<Change>, NoMemory>
    ensures { IfOk result (λ change. change ≡ went_from new.now service.now) }
{
    match service_for(new, &service.instance) {
        Some(_) => Ok(None),
        None => Ok(Some(Change::Went(service.copy()?))),
    }
}

// What is new of a service of the new list.
fn news_to(old: &[Service], service: &Service) -> Result<Option<Change>, NoMemory>
    ensures { IfOk result (λ change. change ≡ news_to old.now service.now) }
{
    match service_for(old, &service.instance) {
        None => Ok(Some(Change::Came(service.copy()?))),
        Some(before) => {
            if same_service(before, service) {
                return Ok(None);
            }
            Ok(Some(Change::Differs(before.copy()?, service.copy()?)))
        }
    }
}

// Appends who went.
fn push_gone(out: &mut Changes, old: &[Service], new: &[Service]) -> Result<(), NoMemory>
    ensures { OnOk result (out.new ≡ out.old ++ gone_from new.now old.now) }
{
    'services: for service in old {
        match went_from(new, service)? {
            Some(change) => out.push(change)?,
            None => {}
        }
    }
    Ok(())
}

// Appends who came or differs.
fn push_news(out: &mut Changes, old: &[Service], new: &[Service]) -> Result<(), NoMemory>
    ensures { OnOk result (out.new ≡ out.old ++ news_of old.now new.now) }
{
    'services: for service in new {
        match news_to(old, service)? {
            Some(change) => out.push(change)?,
            None => {}
        }
    }
    Ok(())
}

/// Who went, in the old list's order, and then who came or differs, in the new one's.
pub fn changes(alloc: Global, old: &Services, new: &Services) -> Result<Changes, NoMemory>
    ensures { IfOk result (λ all. all ≡ changes old.now new.now) }
{
    let mut all = Changes::new(alloc);
    push_gone(&mut all, old.as_slice(), new.as_slice())?;
    push_news(&mut all, old.as_slice(), new.as_slice())?;
    Ok(all)
}
