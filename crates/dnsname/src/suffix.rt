//! The last labels of a name that octets spell.

ghost use Rattle.std.specs.Prelude.{◌≡◌, ◌↔◌, map, IsTrue};
ghost use Rattle.std.specs.Char.{to_ascii_lowercase};
ghost use Rattle.dnsname.specs.Names.{SpellsName, ends_in};
ghost use Rattle.dnsname.specs.Octets.{labels_of};

/// Whether octets are the same, but for upper and lower case. Most often they are the same to the letter.
fn same_but_for_case(first: &[u8], second: &[u8]) -> bool
    ensures { IsTrue result ↔ (map to_ascii_lowercase first.now ≡ map to_ascii_lowercase second.now) }
{
    if first == second {
        return true;
    }
    first.eq_ignore_ascii_case(second)
}

/// Whether the last labels of the name that octets spell are those of another, but for upper and lower case. It takes
/// no memory.
pub fn spelled_ends_in(name: &[u8], suffix: &[u8]) -> bool
    requires name { SpellsName name.now (labels_of name.now) }
    requires suffix { SpellsName suffix.now (labels_of suffix.now) }
    ensures { result ≡ ends_in (labels_of name.now) (labels_of suffix.now) }
{
    let mut rest = name;
    'labels: while rest.len() > suffix.len() {
        let length = rest[0] as usize;
        (_, rest) = rest.split_at(length + 1);
    }
    same_but_for_case(rest, suffix)
}
