//! Updates (RFC 2136, 2).

ghost use Rattle.std.specs.Prelude.{◌≤◌, length};
ghost use Rattle.dnswire.specs.Reading.{update_of};
ghost use Rattle.dnswire.specs.Gives.{GivesWire};

use crate::header::{ID, header_field};
use crate::message::{Update, WireFault};
use crate::record::Shaped;
use crate::section::read_sections;
use std::alloc::Global;

/// Reads a whole update. Additional records are read and dropped. The fault is the first one in
/// reading order, with its place (RFC 2136, 2).
pub fn read_update(alloc: Global, message: &[u8]) -> Result<Update, WireFault>
    requires { 12 ≤ length message.now }
    ensures { GivesWire result (update_of message.now) }
{
    let sections = read_sections(alloc, Shaped::Update, message)?;
    if sections.end != message.len() {
        return Err(WireFault::Trailing(sections.end));
    }
    Ok(Update {
        id: header_field(message, ID),
        zones: sections.questions,
        prereqs: sections.answers,
        changes: sections.authority,
    })
}
