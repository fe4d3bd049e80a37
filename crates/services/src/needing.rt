//! What a list of services asks for.

ghost use Rattle.std.specs.Prelude.{◌≡◌, ◌++◌, IfOk, OnOk};
ghost use Rattle.services.specs.Services.{asks_of, needs};

use crate::listing::whole;
use crate::lists::Services;
use crate::service::Service;
use push_base::NoMemory;
use rrset::record::{Question, Questions};
use std::alloc::Global;

// Appends what a service asks for.
fn push_asks(out: &mut Questions, service: &Service) -> Result<(), NoMemory>
    ensures { OnOk result (out.new ≡ out.old ++ asks_of service.now) }
{
    let own = whole(&service.instance)?;
    out.push(own)?;
    match &service.server {
        None => {}
        Some(server) => {
            let host = whole(&server.host)?;
            out.push(host)?;
        }
    }
    Ok(())
}

/// What a list of services asks for: the root, and of each service its instance and its host.
pub fn needs(alloc: Global, root: &Question, list: &Services) -> Result<Questions, NoMemory>
    ensures { IfOk result (λ questions. questions ≡ needs root.now list.now) }
{
    let mut questions = Questions::new(alloc);
    let first = root.copy()?;
    questions.push(first)?;
    'services: for service in list.as_slice() {
        push_asks(&mut questions, service)?;
    }
    Ok(questions)
}
