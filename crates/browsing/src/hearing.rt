//! A client hears octets.

ghost use Rattle.std.specs.Prelude.{◌≡◌, OnOk};
ghost use Rattle.pushclient.specs.Clients.{Client as Plain};
ghost use Rattle.pushclient.specs.Rule.{StandsFor};
ghost use Rattle.browsing.specs.Browsing.{hears, is_last, reacts};

use push_base::NoMemory;
use pushclient::Client;
use pushclient::client::Step;

// Whether a client has nothing to react to behind this step.
fn is_last(step: &Step) -> bool
    ensures { result ≡ is_last step.now }
{
    match step {
        Step::Waiting | Step::Closed(_) => true,
        Step::Answered(_, _) | Step::Kept(_, _) | Step::Pushed(_) | Step::Typeless(_) => false,
    }
}

// The client reacts to one message after the other, until none is whole, or it has closed.
fn react(client: &mut Client) -> Result<(), NoMemory>
    ensures { OnOk result ((plain : Plain) → StandsFor client.old plain → StandsFor client.new (reacts plain)) }
{
    let mut left = u64::MAX;
    'steps: while left > 0 {
        let step = client.step()?;
        if is_last(&step) {
            return Ok(());
        }
        left -= 1;
    }
    Ok(())
}

/// The client takes octets, as far as it has room, and reacts to the messages that are whole then.
pub(crate) fn hear(client: &mut Client, octets: &[u8]) -> Result<(), NoMemory>
    ensures { OnOk result ((plain : Plain) → StandsFor client.old plain → StandsFor client.new (hears octets.now plain)) }
{
    let _ = client.take(octets);
    react(client)
}
