//! Names as people read them.

ghost use Rattle.std.specs.Prelude.{◌≡◌, ◌++◌, OnOk};
ghost use Rattle.dnsname.specs.Names.{octets};
ghost use Rattle.readable.specs.Shown.{label_front, label_rest, octet_at, shown_labels, shown_name};

use crate::characters::{Dots, push_shown};
use dnsname::Name;
use push_base::{NoMemory, front_of};

// The label with which a name's octets begin, and the octets behind it.
fn first_label(octets: &[u8]) -> (&[u8], &[u8])
    ensures label { result.0.now ≡ label_front octets.now }
    ensures rest { result.1.now ≡ label_rest octets.now }
{
    let Some((size, behind)) = octets.split_first() else {
        return (octets, octets);
    };
    behind.split_at(usize::from(*size).min(behind.len()))
}

// Appends the labels with which octets begin, each with its dot.
fn push_labels(out: &mut Vec<u8>, octets: &[u8]) -> Result<(), NoMemory>
    ensures { OnOk result (out.new.items ≡ out.old.items ++ shown_labels octets.now) }
{
    let mut rest = octets;
    let mut left = octets.len();
    'labels: while left > 0 {
        let (label, behind) = first_label(rest);
        if label.is_empty() {
            return Ok(());
        }
        push_shown(out, Dots::Escaped, label)?;
        out.push(b'.')?;
        rest = behind;
        left -= 1;
    }
    Ok(())
}

/// Appends a name as a person reads it, each label with a dot behind it.
pub fn push_name(out: &mut Vec<u8>, name: &Name) -> Result<(), NoMemory>
    ensures { OnOk result (out.new.items ≡ out.old.items ++ shown_name name.now) }
{
    push_labels(out, name.octets())
}
