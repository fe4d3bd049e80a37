//! The services that the records of a client make.

ghost use Rattle.std.specs.Prelude.{◌≡◌, ◌++◌, map, IfOk, OnOk};
ghost use Rattle.pushclient.specs.Clients.{Client as Plain, held};
ghost use Rattle.pushclient.specs.Rule.{StandsFor};
ghost use Rattle.services.specs.Services.{addresses_of, host_addresses, instances_in, rows_held, service, services, whole};

use crate::lists::{Rdatas, Services};
use crate::reading::{instance_of, push_rdata, server_in};
use crate::service::{Server, Service};
use dnsname::Name;
use push_base::NoMemory;
use pushclient::Client;
use pushclient::client::Held;
use rrset::classes;
use rrset::kinds::{A, AAAA, ANY, TXT};
use rrset::record::{Key, Question, Shown};
use std::alloc::Global;

/// The question for all records of a name.
pub(crate) fn whole(name: &Name) -> Result<Question, NoMemory>
    ensures { IfOk result (λ question. question ≡ whole name.now) }
{
    Ok(Question {
        name: name.copy()?,
        kind: ANY,
        class: classes::IN,
    })
}

// The records that a client holds of a question.
fn rows_of<'a>(client: &'a Client, question: &Question) -> &'a [(Key, Shown)]
    ensures { (plain : Plain) → StandsFor client.now plain → result.now ≡ rows_held (held plain question.now) }
{
    match client.mirror(question) {
        Held::Answered(set) => set.entries(),
        Held::Off => &[],
        Held::Asked => &[],
        Held::Refused(_) => &[],
    }
}

// The instances to which records point.
fn instances_in(alloc: Global, rows: &[(Key, Shown)]) -> Result<Vec<Name>, NoMemory>
    ensures { IfOk result (λ names. names.items ≡ instances_in rows.now) }
{
    let mut names = Vec::new(alloc);
    'rows: for row in rows {
        match instance_of(alloc, row)? {
            Some(name) => names.push(name)?,
            None => {}
        }
    }
    Ok(names)
}

// The addresses of a server's host, if there is a server.
fn addresses_of(alloc: Global, client: &Client, server: &Option<Server>) -> Result<Rdatas, NoMemory>
    ensures { IfOk result (λ addresses. (plain : Plain) → StandsFor client.now plain → addresses ≡ addresses_of (held plain) server.now) }
{
    match server {
        None => Ok(Rdatas::new(alloc)),
        Some(server) => host_addresses(alloc, client, &server.host),
    }
}

// The addresses of a host.
fn host_addresses(alloc: Global, client: &Client, host: &Name) -> Result<Rdatas, NoMemory>
    ensures { IfOk result (λ addresses. (plain : Plain) → StandsFor client.now plain → addresses ≡ host_addresses (held plain) host.now) }
{
    let question = whole(host)?;
    let rows = rows_of(client, &question);
    let mut addresses = Rdatas::new(alloc);
    push_rdata(&mut addresses, A, rows)?;
    push_rdata(&mut addresses, AAAA, rows)?;
    Ok(addresses)
}

// What is known of an instance.
fn service(alloc: Global, client: &Client, instance: Name) -> Result<Service, NoMemory>
    ensures { IfOk result (λ s. (plain : Plain) → StandsFor client.now plain → s ≡ service (held plain) instance) }
{
    let question = whole(&instance)?;
    let rows = rows_of(client, &question);
    let server = server_in(alloc, rows)?;
    let addresses = addresses_of(alloc, client, &server)?;
    let mut texts = Rdatas::new(alloc);
    push_rdata(&mut texts, TXT, rows)?;
    Ok(Service {
        instance,
        server,
        addresses,
        texts,
    })
}

// The services of some instances.
fn services_of(alloc: Global, client: &Client, instances: Vec<Name>) -> Result<Services, NoMemory>
    ensures { IfOk result (λ list. (plain : Plain) → StandsFor client.now plain → list ≡ map (service (held plain)) instances.items) }
{
    let mut list = Services::new(alloc);
    'instances: for instance in instances {
        let service = service(alloc, client, instance)?;
        list.push(service)?;
    }
    Ok(list)
}

/// The services that the records of a client make, for the question that a domain's PTR records answer.
pub fn services(alloc: Global, client: &Client, root: &Question) -> Result<Services, NoMemory>
    ensures { IfOk result (λ list. (plain : Plain) → StandsFor client.now plain → list ≡ services root.now (held plain)) }
{
    let instances = instances_in(alloc, rows_of(client, root))?;
    let all = services_of(alloc, client, instances)?;
    Ok(all)
}
