//! Names that octets spell, and their last labels.

ghost use Rattle.std.specs.Prelude.{◌≡◌, ◌≤◌, length};
ghost use Rattle.dnsname.specs.Names.{SpellsName};
ghost use Rattle.dnsname.specs.Octets.{labels_of};
ghost use Rattle.linkmap.specs.Translation.{local, renamed, fits_a_name};
ghost use Rattle.linkmap.specs.Names.{is_renamable};

use dnsname::{MAX_NAME, Name, spelled_ends_in};

/// The octets of the domain of every link (RFC 6762, 3).
pub(crate) fn local() -> &'static [u8]
    ensures spells { SpellsName result.now (labels_of result.now) }
    ensures labels { labels_of result.now ≡ local }
{
    b"\x05local\x00".as_slice()
}

/// The octets of a name.
pub(crate) fn spelling(name: &Name) -> &[u8]
    ensures spells { SpellsName result.now (labels_of result.now) }
    ensures labels { labels_of result.now ≡ name.now }
{
    name.octets()
}

/// Whether a name still fits with `new` in the place of its last labels `old`; a name that doesn't end in them always does.
pub(crate) fn fits_renamed(name: &[u8], old: &[u8], new: &[u8]) -> bool
    requires name { SpellsName name.now (labels_of name.now) }
    requires old { SpellsName old.now (labels_of old.now) }
    requires new { SpellsName new.now (labels_of new.now) }
    ensures { result ≡ fits_a_name (renamed (labels_of old.now) (labels_of new.now) (labels_of name.now)) }
{
    if spelled_ends_in(name, old) {
        name.len() - old.len() + new.len() <= MAX_NAME
    } else {
        true
    }
}

/// Whether a name doesn't end in `new`, and fits with it in the place of its last labels `old`.
pub(crate) fn is_renamable(name: &[u8], old: &[u8], new: &[u8]) -> bool
    requires name { SpellsName name.now (labels_of name.now) }
    requires old { SpellsName old.now (labels_of old.now) }
    requires new { SpellsName new.now (labels_of new.now) }
    ensures { result ≡ is_renamable (labels_of old.now) (labels_of new.now) (labels_of name.now) }
{
    !spelled_ends_in(name, new) && fits_renamed(name, old, new)
}
