//! A service as fields.

use crate::writing::{short_text, strings_of};
use dnsname::Name;
use push_base::{NoMemory, Octets};
use services::{Server, Service};
use std::alloc::Global;

/// A service as fields, as a person reads them.
#[derive(Drop)]
pub(crate) struct Row {
    /// The instance, without the services' name.
    pub instance: Octets,
    /// The host, empty while it isn't known.
    pub host: Octets,
    /// The port, empty while it isn't known.
    pub port: Octets,
    /// The strings of its TXT records.
    pub texts: Vec<Octets>,
}

// The host and the port.
fn server_fields(
    alloc: Global,
    server: &Option<Server>,
    home: &Name,
) -> Result<(Octets, Octets), NoMemory> {
    match server {
        None => Ok((Octets::new(alloc), Octets::new(alloc))),
        Some(server) => {
            let host = short_text(alloc, &server.host, home)?;
            let port = server.port;
            let port = format!(in alloc; "{port}")?;
            Ok((host, Octets::from_slice(alloc, port.as_bytes())?))
        }
    }
}

// The strings of all TXT records.
fn all_strings(alloc: Global, texts: &[Octets]) -> Result<Vec<Octets>, NoMemory> {
    let mut all = Vec::new(alloc);
    'texts: for text in texts {
        let strings = strings_of(alloc, text.as_slice())?;
        all.extend(strings)?;
    }
    Ok(all)
}

/// The fields of a service: its instance without the services' name, its host without the home's.
pub(crate) fn row_of(
    alloc: Global,
    service: &Service,
    domain: &Name,
    home: &Name,
) -> Result<Row, NoMemory> {
    let instance = short_text(alloc, &service.instance, domain)?;
    let (host, port) = server_fields(alloc, &service.server, home)?;
    let texts = all_strings(alloc, service.texts.as_slice())?;
    Ok(Row {
        instance,
        host,
        port,
        texts,
    })
}
