//! Laws of the definitions that the contracts cite.

ghost use Rattle.std.specs.Prelude.{◌≡◌, ◌<◌, ◌≤◌, ℕ, List, length, Ok};
ghost use Rattle.std.specs.List.{AllByRecursion};
ghost use Rattle.dnswire.specs.declared.message.Update.{Update};
ghost use Rattle.rrset.specs.declared.record.Hearing.{Hearing};
ghost use Rattle.dnswire.specs.Reading.{update_of, hearing_of};
ghost use Rattle.dnswire.specs.Spelling.{IsUpdateRequest, SpellsUpdate, SpellsHearing};
ghost use Rattle.dnswire.specs.Writing.{CanBeWritten, update_octets};

/// What is read from a message is what the message spells, and from no other message is anything read.
pub fn what_is_read()
    ensures update { (message : List ℕ) (update : Update) → SpellsUpdate message update → update_of message ≡ Ok update }
    ensures update_found { (message : List ℕ) (update : Update)
        → AllByRecursion (λ o. o < 256) message → 12 ≤ length message → IsUpdateRequest message
        → update_of message ≡ Ok update → SpellsUpdate message update }
    ensures hearing { (datagram : List ℕ) (hearing : Hearing) → SpellsHearing datagram hearing → hearing_of datagram ≡ Ok hearing }
    ensures hearing_found { (datagram : List ℕ) (hearing : Hearing)
        → AllByRecursion (λ o. o < 256) datagram
        → hearing_of datagram ≡ Ok hearing → SpellsHearing datagram hearing }
{}

/// No message spells two updates, and no datagram two hearings.
pub fn one_meaning()
    ensures update { (message : List ℕ) (a b : Update) → SpellsUpdate message a → SpellsUpdate message b → a ≡ b }
    ensures hearing { (datagram : List ℕ) (a b : Hearing) → SpellsHearing datagram a → SpellsHearing datagram b → a ≡ b }
{}

/// What is written of an update is read as that update.
pub fn what_is_written()
    ensures { (update : Update) → CanBeWritten update → update_of (update_octets update) ≡ Ok update }
{}
