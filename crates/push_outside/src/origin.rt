//! What a script or a configuration is read from.

use std::io::{self, Read};

/// What a script or a configuration is read from: one of two readers. What it has left is what that reader has left.
#[derive(Drop)]
pub enum Origin<I, F> {
    /// Standard input.
    Input(I),
    /// The file at a path.
    File(F),
}

impl<I: Read, F: Read> Read for Origin<I, F> {
    ghost use Rattle.push_outside.specs.Origins.{left_in};

    ghost remaining = { left_in I.remaining F.remaining };

    fn read(&mut self, buf: &mut [u8]) -> io::Result<usize> {
        match self {
            Origin::Input(input) => input.read(buf),
            Origin::File(file) => file.read(buf),
        }
    }
}
