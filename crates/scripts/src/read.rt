//! The octets of a script, from its source.

ghost use Rattle.std.specs.Prelude.{◌≡◌, ◌+◌, ◌≤◌, length, Some, OnOk, IfOk, IsErrOf, IfSome};
ghost use Rattle.push_base.specs.Causes.{Rose};
ghost use Rattle.scripts.specs.Sources.{Gave, LostAtMost, front_read, left_behind};
ghost use Rattle.scripts.specs.Scripts.{max_script};
ghost use Rattle.scripts.specs.declared.read.ReadError.TheVariants.{Failed as ReadFailed, NoMemory as OutOfMemory};

use push_base::{Failed, NoMemory, Source};
use std::alloc::Global;
use thiserror::Error;

/// A script has at most so many octets.
pub const MOST_OCTETS: usize = 16_777_216;

/// How many octets are asked for at a time.
const CHUNK: usize = 4096;

/// Why a script wasn't read.
#[derive(Clone, Copy, Debug, PartialEq, Eq, Error)]
pub enum ReadError {
    /// A read of the source failed.
    #[error("a read failed")]
    Failed,
    /// Memory ran out.
    #[error("out of memory")]
    NoMemory,
}

impl From<Failed> for ReadError {
    ghost from_gives = { λ _ e. e ≡ ReadFailed };

    fn from(_: Failed) -> Self {
        ReadError::Failed
    }
}

impl From<NoMemory> for ReadError {
    ghost from_gives = { λ _ e. e ≡ OutOfMemory };

    fn from(_: NoMemory) -> Self {
        ReadError::NoMemory
    }
}

/// The octets of a source to its end, or one more than a script may have.
pub fn read_script<S: Source>(alloc: Global, source: &mut S) -> Result<Vec<u8>, ReadError>
    ensures octets { IfOk result (λ script. IfSome (S.left source.old) (λ left. script.items ≡ front_read left)) }
    ensures rest { OnOk result (IfSome (S.left source.old) (λ left. S.left source.new ≡ Some (left_behind left))) }
    ensures bound { IfOk result (λ script. length script.items ≤ max_script + 1) }
    ensures failed { IsErrOf result ReadError.Failed → Rose (S.faults source.old) (S.faults source.new) }
    ensures later { S.faults source.old ≤ S.faults source.new }
    ensures most { LostAtMost (max_script + 1) (S.left source.old) (S.left source.new) }
    ensures gave { Gave (S.left source.old) (S.left source.new) (S.given source.old) (S.given source.new) }
{
    let mut script = Vec::new(alloc);
    let mut buf = [0; CHUNK];
    while script.len() <= MOST_OCTETS {
        let most = CHUNK.min(MOST_OCTETS + 1 - script.len());
        let count = source.read(&mut buf[..most])?;
        if count == 0 {
            break;
        }
        script.extend_from_slice(&buf[..count])?;
    }
    Ok(script)
}
