//! A link is asked.

ghost use Rattle.std.specs.Prelude.{◌≡◌, ◌≤◌, ◌++◌, drop, length, IfOk, IfSome, OnErr};
ghost use Rattle.push_base.specs.Limits.{max_datagram};
ghost use Rattle.linkreasons.specs.AllReasons.{askings_of};
ghost use Rattle.pushserver.specs.Hubs.{state_now};
ghost use Rattle.hubasking.specs.AskingHubs.{given_by, untouched_by};
ghost use Rattle.hubasking.specs.KeptReasons.{AreKept};
ghost use Rattle.hubasking.specs.LinkAskings.{ask};

use linkreasons::LinkReasons;
use pushserver::NoMemory;

/// Octets at the front of a buffer, of which the rest stays.
fn put_front(octets: &[u8], buf: &mut [u8])
    requires { length octets.now ≤ length buf.old }
    ensures { buf.new ≡ octets.now ++ drop (length octets.now) buf.old }
{
    buf[..octets.len()].copy_from_slice(octets);
}

/// The datagram of the first question of a link that is due, which is asked now, at the front of a buffer.
pub(crate) fn ask_link(
    hub: &pushserver::Hub,
    reasons: &mut LinkReasons,
    link: usize,
    buf: &mut [u8],
) -> Result<Option<usize>, NoMemory>
    requires kept { AreKept hub.now reasons.old }
    requires room { max_datagram ≤ length buf.old }
    ensures kept { AreKept hub.now reasons.new }
    ensures asked { IfOk result (λ count. (given_by count buf.new, askings_of reasons.new) ≡ ask (state_now hub.now) (askings_of reasons.old) link) }
    ensures bound { IfOk result (λ count. IfSome count (λ n. n ≤ length buf.old)) }
    ensures size { length buf.new ≡ length buf.old }
    ensures rest { IfOk result (λ count. untouched_by count buf.new ≡ untouched_by count buf.old) }
    ensures err { OnErr result (askings_of reasons.new ≡ askings_of reasons.old) }
    ensures nothing { OnErr result (buf.new ≡ buf.old) }
{
    let homes = hub.homes();
    let alloc = homes.allocator();
    let Some(cache) = homes.cache(link) else {
        return Ok(None);
    };
    let mut datagram = Vec::new(alloc);
    if !reasons.ask(alloc, link, cache, hub.now(), &mut datagram)? {
        return Ok(None);
    }
    put_front(&datagram, buf);
    Ok(Some(datagram.len()))
}
