//! How a program that read a script, or a configuration, ends.

/// How a program ends.
#[derive(Clone, Copy, Debug, PartialEq, Eq)]
pub enum Outcome {
    /// Its text was written.
    Done,
    /// A line is outside the grammar, or may not stand where it does: the first one's number was written.
    Outside,
    /// A read of the source failed.
    ReadFault,
    /// Memory ran out.
    NoMemory,
    /// A write to the sink failed.
    WriteFault,
}
