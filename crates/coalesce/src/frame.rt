//! Room for a frame.

ghost use Rattle.std.specs.Prelude.{◌≡◌, ◌+◌, ◌-◌, ◌≤◌, ◌++◌, [], drop, length, IfOk};
ghost use Rattle.coalesce.specs.Sides.{frame_octets};

use crate::NoMemory;
use dsotlv::MAX_FRAME;
use std::alloc::Global;
use std::marker::Model;

/// The octets of frames, at most `MAX_FRAME`. Its memory is taken once, with `new`.
#[derive(Debug, Drop)]
pub struct Frame {
    octets: Vec<u8>,
}

impl Model for Frame {
    ghost use Rattle.std.specs.Prelude.{ℕ, List, ◌≤◌};
    ghost use Rattle.std.specs.Vec.{vec_len, vec_capacity};
    ghost use Rattle.coalesce.specs.Sides.{frame_octets};

    ghost Value = { List ℕ };

    ghost view = { λ f. f.octets.items };

    ghost invariant = { λ f. (vec_len f.octets ≤ frame_octets) × (frame_octets ≤ vec_capacity f.octets) };
}

impl Frame {
    /// Room without octets.
    pub fn new(alloc: Global) -> Result<Self, NoMemory>
        ensures { IfOk result (λ frame. frame ≡ []) }
    {
        let octets = Vec::with_capacity(alloc, MAX_FRAME)?;
        Ok(Frame { octets })
    }

    /// The octets that are there.
    pub fn octets(&self) -> &[u8]
        ensures octets { result.now ≡ self.now }
        ensures most { length self.now ≤ frame_octets }
    {
        &self.octets
    }

    /// Takes all octets out. The room stays.
    pub fn clear(&mut self)
        ensures { self.new ≡ [] }
    {
        self.octets.clear();
    }

    /// For how many octets there is room.
    pub fn room(&self) -> usize
        ensures room { result ≡ frame_octets - length self.now }
        ensures most { length self.now ≤ frame_octets }
    {
        MAX_FRAME - self.octets.len()
    }

    /// Appends octets for which there is room, behind those that are there. It takes no memory.
    pub fn append(&mut self, octets: &[u8])
        requires { length self.old + length octets.now ≤ frame_octets }
        ensures { self.new ≡ self.old ++ octets.now }
    {
        if self.octets.extend_from_slice(octets).is_err() {
            unreachable!();
        }
    }

    /// Takes the first octets out. The room stays.
    pub fn drop_front(&mut self, count: usize)
        requires { count ≤ length self.old }
        ensures { self.new ≡ drop count self.old }
    {
        self.octets.drain(..count);
    }
}
