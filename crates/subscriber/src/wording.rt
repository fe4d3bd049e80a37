//! The lines that a subscriber says.

ghost use Rattle.std.specs.Prelude.{◌≡◌, ◌++◌, ◌∷◌, [], codes, decimal, map, IfOk, string_bytes};
ghost use Rattle.scripts.specs.Words.{ended_lines};
ghost use Rattle.dnsname.specs.Text.{name_text};
ghost use Rattle.subscriber.specs.Said.{added_line, closed_line, notice_line, removed_line, step_lines};

use dnsname::Name;
use dsosession::session::CloseReason;
use dsotlv::Notice;
use push_base::NoMemory;
use pushclient::client::Step;
use rrset::record::Rr;
use scripts::{close_words, octets_text};
use std::alloc::Global;

/// The lines of one step.
pub(crate) fn step_text(alloc: Global, step: &Step) -> Result<String, NoMemory>
    ensures { IfOk result (λ text. string_bytes text ≡ ended_lines (step_lines step.now)) }
{
    match step {
        Step::Answered(id, rcode) => answer_text(alloc, *id, *rcode),
        Step::Kept(inactivity, keepalive) => keepalive_text(alloc, *inactivity, *keepalive),
        Step::Pushed(notices) => notice_lines(alloc, notices.as_slice()),
        Step::Typeless(id) => typeless_text(alloc, *id),
        Step::Waiting => Ok(String::new(alloc)),
        Step::Closed(reason) => closed_text(alloc, *reason),
    }
}

fn answer_text(alloc: Global, id: u16, rcode: u8) -> Result<String, NoMemory>
    ensures { IfOk result (λ text. string_bytes text ≡ codes "answer " ++ (decimal id ++ 32 ∷ (decimal rcode ++ 10 ∷ []))) }
{
    format!(in alloc; "answer {id} {rcode}\n")
}

fn keepalive_text(alloc: Global, inactivity: u32, keepalive: u32) -> Result<String, NoMemory>
    ensures { IfOk result (λ text. string_bytes text ≡ codes "keepalive " ++ (decimal inactivity ++ 32 ∷ (decimal keepalive ++ 10 ∷ []))) }
{
    format!(in alloc; "keepalive {inactivity} {keepalive}\n")
}

fn typeless_text(alloc: Global, id: u16) -> Result<String, NoMemory>
    ensures { IfOk result (λ text. string_bytes text ≡ codes "typeless " ++ (decimal id ++ 10 ∷ [])) }
{
    format!(in alloc; "typeless {id}\n")
}

/// The line of a connection that the client has closed.
pub(crate) fn closed_text(alloc: Global, reason: CloseReason) -> Result<String, NoMemory>
    ensures { IfOk result (λ text. string_bytes text ≡ ended_lines (closed_line reason ∷ [])) }
{
    let words = close_words(alloc, reason)?;
    ending_text(alloc, words.as_str())
}

fn ending_text(alloc: Global, words: &str) -> Result<String, NoMemory>
    ensures { IfOk result (λ text. string_bytes text ≡ codes "closed " ++ (words.now ++ 10 ∷ [])) }
{
    format!(in alloc; "closed {words}\n")
}

// The notices of a PUSH, each in a line.
fn notice_lines(alloc: Global, notices: &[Notice]) -> Result<String, NoMemory>
    ensures { IfOk result (λ text. string_bytes text ≡ ended_lines (map notice_line notices.now)) }
{
    let mut text = String::new(alloc);
    'notices: for notice in notices {
        let line = notice_text(alloc, notice)?;
        text.push_str(line.as_str())?;
    }
    Ok(text)
}

// The line of a notice (RFC 8765, 6.3).
fn notice_text(alloc: Global, notice: &Notice) -> Result<String, NoMemory>
    ensures { IfOk result (λ text. string_bytes text ≡ ended_lines (notice_line notice.now ∷ [])) }
{
    match notice {
        Notice::Add(rr) => added_text(alloc, rr),
        Notice::RemoveOne(rr) => removed_text(alloc, rr),
        Notice::RemoveSet(name, class, kind) => removed_set_text(alloc, name, *class, *kind),
        Notice::RemoveClass(name, class) => removed_class_text(alloc, name, *class),
        Notice::RemoveAll(name) => removed_all_text(alloc, name),
        Notice::Odd(name, ttl) => odd_text(alloc, name, *ttl),
    }
}

fn added_text(alloc: Global, rr: &Rr) -> Result<String, NoMemory>
    ensures { IfOk result (λ text. string_bytes text ≡ ended_lines (added_line rr.now ∷ [])) }
{
    let owner = rr.owner.text()?;
    let rdata = octets_text(alloc, rr.rdata.as_slice())?;
    let owner = owner.as_str();
    add_words(alloc, owner, rr.ttl, rr.class, rr.kind, rdata.as_str())
}

fn add_words(
    alloc: Global,
    owner: &str,
    ttl: u32,
    class: u16,
    kind: u16,
    rdata: &str,
) -> Result<String, NoMemory>
    ensures { IfOk result (λ text. string_bytes text ≡ codes "add " ++ (owner.now ++ 32 ∷ (decimal ttl ++ 32 ∷ (decimal class ++ 32 ∷ (decimal kind ++ 32 ∷ (rdata.now ++ 10 ∷ [])))))) }
{
    format!(in alloc; "add {owner} {ttl} {class} {kind} {rdata}\n")
}

fn removed_text(alloc: Global, rr: &Rr) -> Result<String, NoMemory>
    ensures { IfOk result (λ text. string_bytes text ≡ ended_lines (removed_line rr.now ∷ [])) }
{
    let owner = rr.owner.text()?;
    let rdata = octets_text(alloc, rr.rdata.as_slice())?;
    remove_words(alloc, owner.as_str(), rr.class, rr.kind, rdata.as_str())
}

fn remove_words(
    alloc: Global,
    owner: &str,
    class: u16,
    kind: u16,
    rdata: &str,
) -> Result<String, NoMemory>
    ensures { IfOk result (λ text. string_bytes text ≡ codes "remove " ++ (owner.now ++ 32 ∷ (decimal class ++ 32 ∷ (decimal kind ++ 32 ∷ (rdata.now ++ 10 ∷ []))))) }
{
    format!(in alloc; "remove {owner} {class} {kind} {rdata}\n")
}

fn removed_set_text(alloc: Global, name: &Name, class: u16, kind: u16) -> Result<String, NoMemory>
    ensures { IfOk result (λ text. string_bytes text ≡ codes "removeset " ++ (name_text name.now ++ 32 ∷ (decimal class ++ 32 ∷ (decimal kind ++ 10 ∷ [])))) }
{
    let name = name.text()?;
    remove_set_words(alloc, name.as_str(), class, kind)
}

fn remove_set_words(alloc: Global, name: &str, class: u16, kind: u16) -> Result<String, NoMemory>
    ensures { IfOk result (λ text. string_bytes text ≡ codes "removeset " ++ (name.now ++ 32 ∷ (decimal class ++ 32 ∷ (decimal kind ++ 10 ∷ [])))) }
{
    format!(in alloc; "removeset {name} {class} {kind}\n")
}

fn removed_class_text(alloc: Global, name: &Name, class: u16) -> Result<String, NoMemory>
    ensures { IfOk result (λ text. string_bytes text ≡ codes "removeclass " ++ (name_text name.now ++ 32 ∷ (decimal class ++ 10 ∷ []))) }
{
    let name = name.text()?;
    remove_class_words(alloc, name.as_str(), class)
}

fn remove_class_words(alloc: Global, name: &str, class: u16) -> Result<String, NoMemory>
    ensures { IfOk result (λ text. string_bytes text ≡ codes "removeclass " ++ (name.now ++ 32 ∷ (decimal class ++ 10 ∷ []))) }
{
    format!(in alloc; "removeclass {name} {class}\n")
}

fn removed_all_text(alloc: Global, name: &Name) -> Result<String, NoMemory>
    ensures { IfOk result (λ text. string_bytes text ≡ codes "removeall " ++ (name_text name.now ++ 10 ∷ [])) }
{
    let name = name.text()?;
    remove_all_words(alloc, name.as_str())
}

fn remove_all_words(alloc: Global, name: &str) -> Result<String, NoMemory>
    ensures { IfOk result (λ text. string_bytes text ≡ codes "removeall " ++ (name.now ++ 10 ∷ [])) }
{
    format!(in alloc; "removeall {name}\n")
}

fn odd_text(alloc: Global, name: &Name, ttl: u32) -> Result<String, NoMemory>
    ensures { IfOk result (λ text. string_bytes text ≡ codes "odd " ++ (name_text name.now ++ 32 ∷ (decimal ttl ++ 10 ∷ []))) }
{
    let name = name.text()?;
    odd_words(alloc, name.as_str(), ttl)
}

fn odd_words(alloc: Global, name: &str, ttl: u32) -> Result<String, NoMemory>
    ensures { IfOk result (λ text. string_bytes text ≡ codes "odd " ++ (name.now ++ 32 ∷ (decimal ttl ++ 10 ∷ []))) }
{
    format!(in alloc; "odd {name} {ttl}\n")
}
