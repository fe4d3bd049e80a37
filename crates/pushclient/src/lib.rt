//! A DNS Push client without its socket: it asks questions, keeps a record set for each answer, reacts to each message
//! of the server, and sends Keepalives (RFC 8490, 5 to 7; RFC 8765, 6).
//!
//! **Model.** A `Client` stands for plain clients (`specs/Clients`): wishes in the order of asking, each with the
//! notices that came since its answer, and a connection. What is kept instead of notices is a `Mirror` (`specs/Rule`).
//! `specs/Steps` says what one message or one moment does. `specs/Pieces` promises that what it does depends on the
//! octets, and not on the pieces in which they came.
//!
//! **Flow.** `client.rt` has the calls, over `client_state.rt`. `connected` asks all wanted questions anew;
//! `subscribe`, `unsubscribe` and `reconfirm` write messages (`client_messages.rt`, `connection.rt`). `take` puts
//! octets into the input. `step` reacts to one whole message: `told.rt` says what it tells, `reacting.rt` what becomes
//! of the wishes (`wishes.rt`) and the sets. `moment` sends a Keepalive or closes. `give`, or `hand_out_over`
//! (`hand_out.rt`), hands out what is to be sent.
//!
//! **Begin** with `specs/Clients` and `specs/Steps`, then `client.rt`, then `reacting.rt`.
//!
//! **Change.** How wishes and sets are kept is private. `specs/Clients` and `specs/Steps` are what the laws of
//! `flight_laws` and the text of `subscriber` speak of. A case more in `Step`, `Asked` or `Held` is one for
//! `subscriber` and `replay` to print. The client never trusts the server: each octet string has a defined step.
//!
//! **Stand on it**: `subscriber` (the command), `replay` (the clients of scripts), and the laws of `inflight` and
//! `flight_laws`.
#![tactic(auto)]

pub mod client;
mod client_messages;
mod client_state;
mod connection;
mod hand_out;
pub mod laws;
pub mod laws_of_steps;
mod opened;
mod reacting;
mod told;
pub mod wish;
mod wishes;

ghost use Rattle.std.specs.Prelude.{◌≡◌, [], ◌∷◌, ◌++◌, codes, Some};
ghost use Rattle.push_base.specs.Hexadecimal.{hex, hex_text};
ghost use Rattle.pushclient.specs.Worked.{asking, dropping, later, fed};
ghost use Rattle.pushclient.specs.Clients.{closed_as, output_of};

pub use client::Client;
use dsosession::session::CloseReason;
pub use hand_out::hand_out_over;
pub use rrset::NoMemory;

/// Examples of what a client sends.
pub fn worked_rows()
    ensures request { hex_text (output_of (asking (codes "example.com.") 6)) ≡ codes "002100013000000000000000000000400011076578616d706c6503636f6d0000060001" }
    ensures quiet { hex_text (output_of (later 9999 (fed (hex (codes "00180000300000000000000000000001000800003a9800002710")) (fed (hex (codes "000c0001b0000000000000000000")) (asking (codes "example.com.") 6))))) ≡ [] }
    ensures keepalive { hex_text (output_of (later 10000 (fed (hex (codes "00180000300000000000000000000001000800003a9800002710")) (fed (hex (codes "000c0001b0000000000000000000")) (asking (codes "example.com.") 6))))) ≡ codes "00180002300000000000000000000001000800003a9800003a98" }
    ensures interval { closed_as (fed (hex (codes "00180000300000000000000000000001000800003a980000270f")) (fed (hex (codes "000c0001b0000000000000000000")) (asking (codes "example.com.") 6))) ≡ Some (CloseReason.Interval 9999) }
    ensures early_push { closed_as (fed (hex (codes "001000003000000000000000000000410000")) (asking (codes "example.com.") 6)) ≡ Some CloseReason.Early }
    ensures bad_push { closed_as (fed (hex (codes "001000003000000000000000000000410000")) (fed (hex (codes "000c0001b0000000000000000000")) (asking (codes "example.com.") 6))) ≡ Some (CloseReason.BadData 65) }
    ensures dropped { hex_text (output_of (dropping (codes "example.com.") 6 (fed (hex (codes "000c0001b0000000000000000000")) (asking (codes "example.com.") 6)))) ≡ codes "001200003000000000000000000000420002" ++ codes "0001" }
    ensures dropped_when_closed { output_of (dropping (codes "example.com.") 6 (fed (hex (codes "001000003000000000000000000000410000")) (fed (hex (codes "000c0001b0000000000000000000")) (asking (codes "example.com.") 6)))) ≡ [] }
{}
