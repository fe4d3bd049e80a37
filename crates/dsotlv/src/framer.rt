//! Octets of a connection until they are whole messages (RFC 7766, 8).

ghost use Rattle.std.specs.Prelude.{◌≡◌, ◌-◌, ◌<◌, ◌≤◌, ◌++◌, [], length, min, take, drop, slice_range, vec_capacity, option_map, Some, None, IfOk, IfSome, IsSome, MatchOption};
ghost use Rattle.push_base.specs.Limits.{max_input};
ghost use Rattle.rrset.specs.Header.{max_message};
ghost use Rattle.dsotlv.specs.Messages.{first_message, max_frame};

use crate::NoMemory;
use crate::number::number_at;
use push_base::limits::MAX_INPUT;
use rrset::header::MAX_MESSAGE;
use std::alloc::Global;
use std::marker::Model;

/// The octets of a message's length (RFC 7766, 8).
pub const LENGTH: usize = 2;

/// The most octets of a message and its length (RFC 7766, 8).
pub const MAX_FRAME: usize = LENGTH + MAX_MESSAGE;

/// Octets of a connection until they are whole messages (RFC 7766, 8): at most 69,633, which is a whole frame and
/// 4,096 more. Its memory is taken once, with `new`.
///
/// Messages that were taken out stand in front of the others until the next piece comes: so a message that goes moves nothing.
#[derive(Debug, Drop)]
pub struct Framer {
    octets: Vec<u8>,
    /// The octets of the messages that were taken out.
    taken: usize,
}

impl Model for Framer {
    ghost use Rattle.std.specs.Prelude.{ℕ, List, ◌≤◌, drop};
    ghost use Rattle.std.specs.Vec.{vec_len, vec_capacity};
    ghost use Rattle.push_base.specs.Limits.{max_input};

    ghost Value = { List ℕ };

    ghost view = { λ f. drop f.taken f.octets.items };

    ghost invariant = { λ f. (f.taken ≤ vec_len f.octets) × (vec_len f.octets ≤ max_input) × (max_input ≤ vec_capacity f.octets) };
}

/// The place after the first message, where it is whole.
fn first_end(octets: &[u8]) -> Option<usize>
    ensures found { IfSome result (λ end. first_message octets.now ≡ Some (slice_range octets.now 2 end, drop end octets.now)) }
    ensures head { IfSome result (λ end. 2 ≤ end) }
    ensures within { IfSome result (λ end. end ≤ length octets.now) }
    ensures most { IfSome result (λ end. end ≤ max_frame) }
    ensures none { result ≡ None → first_message octets.now ≡ None }
    ensures room { result ≡ None → length octets.now < max_frame }
{
    if octets.len() < LENGTH {
        return None;
    }
    let size = usize::from(number_at(octets, 0));
    if octets.len() - LENGTH < size {
        return None;
    }
    Some(LENGTH + size)
}

/// Copies the front of octets that fits, and gives its length.
pub fn copy_front(octets: &[u8], buf: &mut [u8]) -> usize
    ensures count { result ≡ min (length buf.old) (length octets.now) }
    ensures octets { buf.new ≡ take (length buf.old) octets.now ++ drop (length octets.now) buf.old }
{
    let count = buf.len().min(octets.len());
    buf[..count].copy_from_slice(&octets[..count]);
    count
}

/// The octets in front go.
fn drop_front(octets: &mut Vec<u8>, count: usize)
    requires { count ≤ length octets.old.items }
    ensures left { octets.new.items ≡ drop count octets.old.items }
    ensures capacity { vec_capacity octets.old ≤ vec_capacity octets.new }
{
    if count == octets.len() {
        octets.clear();
    } else {
        octets.drain(..count);
    }
}

impl Framer {
    /// No octets yet.
    pub fn new(alloc: Global) -> Result<Self, NoMemory>
        ensures { IfOk result (λ framer. framer ≡ []) }
    {
        let octets = Vec::with_capacity(alloc, MAX_INPUT)?;
        Ok(Framer { octets, taken: 0 })
    }

    /// Takes the longest front of a piece for which there is room, and gives its octets' number.
    pub fn push(&mut self, piece: &[u8]) -> usize
        ensures count { result ≡ min (length piece.now) (max_input - length self.old) }
        ensures taken { self.new ≡ self.old ++ take (max_input - length self.old) piece.now }
    {
        if self.taken > 0 {
            drop_front(&mut self.octets, self.taken);
            self.taken = 0;
        }
        let room = MAX_INPUT - self.octets.len();
        let (front, _) = piece.split_at(piece.len().min(room));
        if self.octets.extend_from_slice(front).is_err() {
            unreachable!();
        }
        front.len()
    }

    /// The first message, where it is whole. It has at most 65,535 octets. Where none is whole, there is room for
    /// 4,097 octets and more.
    pub fn next(&self) -> Option<&[u8]>
        ensures first { MatchOption result (first_message self.now ≡ None) (λ message. option_map (λ f. f.0) (first_message self.now) ≡ Some message.now) }
        ensures most { IfSome result (λ message. length message.now ≤ max_message) }
        ensures room { result ≡ None → length self.now < max_frame }
    {
        let octets = self.octets();
        let end = first_end(octets)?;
        Some(&octets[LENGTH..end])
    }

    /// Takes the first message out, with its length. What follows it stays.
    pub fn drop_first(&mut self)
        requires { IsSome (first_message self.old) }
        ensures left { option_map (λ f. f.1) (first_message self.old) ≡ Some self.new }
        ensures shorter { length self.new < length self.old }
    {
        match first_end(self.octets()) {
            Some(end) => {
                self.taken += end;
            }
            None => unreachable!(),
        }
    }

    /// The octets that are there.
    pub fn octets(&self) -> &[u8]
        ensures octets { result.now ≡ self.now }
        ensures most { length self.now ≤ max_input }
    {
        &self.octets[self.taken..]
    }
}
