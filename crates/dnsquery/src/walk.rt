//! Along CNAMEs (RFC 1034, 3.6.2).

ghost use Rattle.std.specs.Prelude.{◌≡◌, ◌+◌, ◌*◌, ◌<◌, ◌≤◌, ◌++◌, ◌^◌, [], None, Some, MatchOption, filter, find, flat_map, length, map, IfOk, OnOk, IsTrue};
ghost use Rattle.std.specs.List.{list_any};
ghost use Rattle.push_base.specs.Limits.{max_octets_at_name};
ghost use Rattle.dnsname.specs.Names.{same_name};
ghost use Rattle.rrset.specs.Kinds.{cname_kind};
ghost use Rattle.rrset.specs.Rdata.{shape_fits};
ghost use Rattle.rrset.specs.RecordSet.{size_of};
ghost use Rattle.dnswire.specs.Writing.{record_octets};
ghost use Rattle.dnsquery.specs.Replies.{CanBeReplied, is_left_out, nothing_at, rrs_of, target_in, walk, walk_from};
ghost use Rattle.dnsquery.specs.Steps.{IsStep, IsWalked, asks_for, is_alias};

use crate::lookup::Lookup;
use dnsname::{Name, NameFault};
use dnswire::writing::write_shown;
use rrset::classes::{ANY as ANY_CLASS, IN};
use rrset::kinds::{ANY, CNAME};
use rrset::rcodes::{NOERROR, NXDOMAIN};
use rrset::{Key, NoMemory, Question, Shown};
use std::alloc::Global;

/// The most targets of CNAMEs that a walk goes to; this project's own.
pub const MAX_TARGETS: usize = 8;

/// What a walk does at a name: how many records it adds, and the target to which it goes on, or else the RCODE with which
/// it ends.
#[derive(Drop)]
pub(crate) struct Turn {
    pub(crate) count: usize,
    pub(crate) rcode: u8,
    pub(crate) target: Option<Name>,
}

/// How many records a walk has added, and the RCODE with which it ended.
#[derive(Clone, Copy)]
pub(crate) struct Walked {
    pub(crate) count: usize,
    pub(crate) rcode: u8,
}

/// Whether a question with this kind and class asks for a key, at its name.
fn asks_for(kind: u16, class: u16, key: &Key) -> bool
    ensures { result ≡ asks_for kind class key.now }
{
    (kind == key.kind || kind == ANY) && (class == key.class || class == ANY_CLASS)
}

/// Appends those of a name's records that a question asks for. Gives how many they are.
fn push_matching(
    rows: &[(Key, Shown)],
    kind: u16,
    class: u16,
    out: &mut Vec<u8>,
) -> Result<usize, NoMemory>
    requires { size_of rows.now ≤ max_octets_at_name }
    ensures octets { OnOk result (out.new.items ≡ out.old.items ++ flat_map record_octets (rrs_of (filter (λ e. asks_for kind class e.0) rows.now))) }
    ensures count { IfOk result (λ count. count ≡ length (filter (λ e. asks_for kind class e.0) rows.now)) }
    ensures few { IfOk result (λ count. count ≤ 5454) }
{
    let mut count = 0;
    'rows: for (key, shown) in rows {
        if asks_for(kind, class, key) {
            write_shown(key, shown, out)?;
            count += 1;
        }
    }
    Ok(count)
}

/// Whether a key is that of a CNAME.
fn is_alias(key: &Key) -> bool
    ensures { result ≡ is_alias key.now }
{
    asks_for(CNAME, IN, key)
}

/// The first CNAME of some records.
fn first_alias(rows: &[(Key, Shown)]) -> Option<&(Key, Shown)>
    ensures { MatchOption result (find (λ e. is_alias e.0) rows.now ≡ None) (λ row. find (λ e. is_alias e.0) rows.now ≡ Some row.now) }
{
    'rows: for row in rows {
        if is_alias(&row.0) {
            return Some(row);
        }
    }
    None
}

/// The name to which the rdata of a CNAME leads.
fn target_in(alloc: Global, rdata: &[u8]) -> Result<Name, NoMemory>
    requires { IsTrue (shape_fits cname_kind rdata.now) }
    ensures name { IfOk result (λ name. name ≡ target_in rdata.now) }
{
    match Name::read_plain(alloc, rdata, 0) {
        Ok((name, _)) => Ok(name),
        Err(NameFault::NoMemory) => Err(NoMemory),
        Err(_) => unreachable!(),
    }
}

/// The RCODE where a name has none of the records asked for, and no CNAME.
fn rcode_at<R: Lookup>(records: &R, name: &Name) -> u8
    ensures { result ≡ (nothing_at (R.known records.now) name.now).rcode }
{
    if records.home(name) && !records.below(name) {
        NXDOMAIN
    } else {
        NOERROR
    }
}

/// What a walk does at a name: it appends the records asked for, or else the first CNAME. Where memory runs out part of
/// them may have been appended.
fn turn_at<R: Lookup>(
    alloc: Global,
    records: &R,
    question: &Question,
    name: &Name,
    out: &mut Vec<u8>,
) -> Result<Turn, NoMemory>
    requires { CanBeReplied (R.known records.now).records }
    ensures { IfOk result (IsStep (R.known records.now) question.now name.now out.old.items out.new.items) }
{
    let rows = records.at(name);
    let count = push_matching(rows, question.kind, question.class, out)?;
    if count > 0 {
        return Ok(Turn {
            count,
            rcode: NOERROR,
            target: None,
        });
    }
    let Some((key, shown)) = first_alias(rows) else {
        return Ok(Turn {
            count: 0,
            rcode: rcode_at(records, name),
            target: None,
        });
    };
    write_shown(key, shown, out)?;
    let target = target_in(alloc, shown.rdata.as_slice())?;
    Ok(Turn {
        count: 1,
        rcode: NOERROR,
        target: Some(target),
    })
}

/// Whether a name is one of those visited.
fn is_visited(visited: &[Name], name: &Name) -> bool
    ensures { result ≡ list_any (same_name name.now) visited.now }
{
    visited.iter().any(|gone| name.same(gone))
}

/// Whether a walk doesn't go to a target: it was visited, or has no home.
fn is_left_out<R: Lookup>(records: &R, visited: &[Name], target: &Name) -> bool
    ensures { result ≡ is_left_out (R.known records.now) visited.now target.now }
{
    is_visited(visited, target) || !records.home(target)
}

/// Appends the answers to a question, with so many targets to go to. Where memory runs out part of them may have been
/// appended.
fn walk_to<R: Lookup>(
    alloc: Global,
    most: usize,
    records: &R,
    question: &Question,
    out: &mut Vec<u8>,
) -> Result<Walked, NoMemory>
    requires records { CanBeReplied (R.known records.now).records }
    requires few { most ≤ 8 }
    ensures { IfOk result (λ walked. IsWalked (walk_from most (R.known records.now) question.now [] question.now.name) out.old.items out.new.items walked.count walked.rcode) }
{
    let mut visited = Vec::new(alloc);
    let mut name = question.name.copy()?;
    let mut count = 0;
    'targets: loop {
        let turn = turn_at(alloc, records, question, &name, out)?;
        count += turn.count;
        let Some(target) = turn.target else {
            return Ok(Walked {
                count,
                rcode: turn.rcode,
            });
        };
        if visited.len() == most {
            return Ok(Walked {
                count,
                rcode: NOERROR,
            });
        }
        visited.push(name)?;
        if is_left_out(records, &visited, &target) {
            return Ok(Walked {
                count,
                rcode: NOERROR,
            });
        }
        name = target;
    }
}

/// Appends the answers to a question along CNAMEs (RFC 1034, 3.6.2). Where memory runs out part of them may have been
/// appended.
pub(crate) fn walk<R: Lookup>(
    alloc: Global,
    records: &R,
    question: &Question,
    out: &mut Vec<u8>,
) -> Result<Walked, NoMemory>
    requires { CanBeReplied (R.known records.now).records }
    ensures { IfOk result (λ walked. IsWalked (walk (R.known records.now) question.now) out.old.items out.new.items walked.count walked.rcode) }
{
    walk_to(alloc, MAX_TARGETS, records, question, out)
}
