//! Which records a question asks for, and how large a record is.

ghost use Rattle.std.specs.Prelude.{◌≡◌, ◌+◌, length};
ghost use Rattle.dnsname.specs.Names.{octets};
ghost use Rattle.rrset.specs.Records.{matches, rr_size, same_question};

use crate::classes;
use crate::kinds::ANY;
use crate::record::{Key, Question, Rr};
use dnsname::Name;
use push_base::Octets;

/// The octets of a record's fields between its owner and its rdata (RFC 1035, 3.2.1).
pub const FIXED_FIELDS: u64 = 10;

/// Whether a question asks for the records of a key: the name is the owner, and kind and class are
/// equal or asked as ANY (RFC 1035, 3.2.3 and 3.2.5).
pub fn matches(question: &Question, key: &Key) -> bool
    ensures { result ≡ matches question.now key.now }
{
    question.name.same(&key.owner)
        && (question.kind == key.kind || question.kind == ANY)
        && (question.class == key.class || question.class == classes::ANY)
}

/// Whether two questions are one: the names but for case, kind and class are equal.
pub fn same_question(first: &Question, second: &Question) -> bool
    ensures { result ≡ same_question first.now second.now }
{
    first.name.same(&second.name) && first.kind == second.kind && first.class == second.class
}

/// The octets that a record takes without pointers (RFC 1035, 3.2.1).
pub fn rr_size(rr: &Rr) -> u64
    ensures { result ≡ rr_size rr.now }
{
    size_with(&rr.owner, &rr.rdata)
}

/// The octets of a record with this owner and rdata.
pub(crate) fn size_with(owner: &Name, rdata: &Octets) -> u64
    ensures { result ≡ length (octets owner.now) + 10 + length rdata.now }
{
    let owner = owner.octets().len() as u64;
    let rdata = rdata.as_slice().len() as u64;
    owner + FIXED_FIELDS + rdata
}
