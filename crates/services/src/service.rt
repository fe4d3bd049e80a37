//! What a service is, and how two lists of services differ.

ghost use Rattle.std.specs.Prelude.{◌≡◌, IfOk};

use crate::lists::Rdatas;
use dnsname::Name;
use push_base::NoMemory;

/// Where a service is found (RFC 2782).
#[derive(Debug, Drop)]
pub struct Server {
    /// A lower number is tried first.
    pub priority: u16,
    /// Of one priority, a higher number is tried more often.
    pub weight: u16,
    /// The port.
    pub port: u16,
    /// The host.
    pub host: Name,
}

/// A service of a list (RFC 6763, 4 to 6).
#[derive(Debug, Drop)]
pub struct Service {
    /// The instance, in the letters of its PTR record.
    pub instance: Name,
    /// Where it is found, if that is known.
    pub server: Option<Server>,
    /// The host's addresses, those of four octets first.
    pub addresses: Rdatas,
    /// What its TXT records hold.
    pub texts: Rdatas,
}

/// A difference between two lists of services.
#[derive(Debug, Drop)]
pub enum Change {
    /// This one is no longer there.
    Went(Service),
    /// This one is there.
    Came(Service),
    /// The first is the second now.
    Differs(Service, Service),
}

impl Server {
    /// The same server.
    pub fn copy(&self) -> Result<Server, NoMemory>
        ensures { IfOk result (λ copy. copy ≡ self.now) }
    {
        Ok(Server {
            priority: self.priority,
            weight: self.weight,
            port: self.port,
            host: self.host.copy()?,
        })
    }
}

// The same server, if any.
fn copy_server(server: &Option<Server>) -> Result<Option<Server>, NoMemory>
    ensures { IfOk result (λ copy. copy ≡ server.now) }
{
    match server {
        None => Ok(None),
        Some(server) => Ok(Some(server.copy()?)),
    }
}

impl Service {
    /// The same service.
    pub fn copy(&self) -> Result<Service, NoMemory>
        ensures { IfOk result (λ copy. copy ≡ self.now) }
    {
        let instance = self.instance.copy()?;
        let server = copy_server(&self.server)?;
        let addresses = self.addresses.copy()?;
        let texts = self.texts.copy()?;
        Ok(Service {
            instance,
            server,
            addresses,
            texts,
        })
    }
}
