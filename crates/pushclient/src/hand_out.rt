//! All that a client has to send is handed out.

ghost use Rattle.std.specs.Prelude.{◌≤◌, length, IfOk};
ghost use Rattle.pushclient.specs.HandedOut.{HandsOut};

use crate::NoMemory;
use crate::client::Client;
use push_base::front_of;
use std::alloc::Global;

/// All that a client has to send is handed out, over a buffer that has room for an octet.
pub fn hand_out_over(
    alloc: Global,
    client: &mut Client,
    buffer: &mut [u8],
) -> Result<Vec<u8>, NoMemory>
    requires { 1 ≤ length buffer.old }
    ensures { IfOk result (λ octets. HandsOut client.old octets.items client.new) }
{
    let mut octets = Vec::new(alloc);
    'pieces: loop {
        let count = client.give(buffer);
        if count == 0 {
            return Ok(octets);
        }
        octets.extend_from_slice(front_of(buffer, count))?;
    }
}
