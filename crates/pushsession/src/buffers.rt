//! Octets that come in and octets that are handed on.

ghost use Rattle.std.specs.Prelude.{◌≡◌, length, min};
ghost use Rattle.pushsession.specs.Sessions.{copied, laid_over, room_of, with_piece};

use crate::session::PushSession;
use dsotlv::copy_front;

impl PushSession {
    /// Takes the longest front of a piece of the input for which there is room, and gives its length (RFC 7766, 8). A
    /// session that has stopped or ended takes nothing.
    pub fn take(&mut self, piece: &[u8]) -> usize
        ensures count { result ≡ min (length piece.now) (room_of self.old) }
        ensures taken { self.new ≡ with_piece piece.now self.old }
    {
        if !self.standing.is_open() {
            return 0;
        }
        self.input.push(piece)
    }

    /// Copies the longest front of the output that fits, takes it out, and gives its length.
    pub fn copy(&mut self, buf: &mut [u8]) -> usize
        ensures count { result ≡ min (length buf.old) (length self.old.output) }
        ensures octets { buf.new ≡ laid_over self.old.output buf.old }
        ensures rest { self.new ≡ copied (length buf.old) self.old }
    {
        let count = copy_front(self.output.octets(), buf);
        self.output.drop_front(count);
        count
    }
}
