//! The ledgers of what is accepted, and which they are.

ghost use Rattle.hublock.specs.Feeds.{LedgerNames, parts_each};

use std::marker::{Brand, PhantomData};
use std::sync::ledger::Ledger;

/// The parts of each ledger.
pub const PARTS: u64 = 4_194_304;

/// Which four ledgers count what is accepted. A caller that opens new ones passes `Brand`, and its proof tells their names.
pub trait Books {
    /// Their names.
    ghost names: { LedgerNames };
}

impl Books for Brand {
    ghost names = { record { changes = 0; heard = 0; moments = 0; made = 0 } };
}

/// The ledger of changes.
pub struct Changes<B: Books> {
    books: PhantomData<B>,
}

impl<B: Books> Ledger for Changes<B> {
    ghost name = { B.names.changes };

    ghost parts = { parts_each };
}

/// The ledger of hearings.
pub struct Hearings<B: Books> {
    books: PhantomData<B>,
}

impl<B: Books> Ledger for Hearings<B> {
    ghost name = { B.names.heard };

    ghost parts = { parts_each };
}

/// The ledger of moments.
pub struct Moments<B: Books> {
    books: PhantomData<B>,
}

impl<B: Books> Ledger for Moments<B> {
    ghost name = { B.names.moments };

    ghost parts = { parts_each };
}

/// The ledger of the sessions made.
pub struct Sessions<B: Books> {
    books: PhantomData<B>,
}

impl<B: Books> Ledger for Sessions<B> {
    ghost name = { B.names.made };

    ghost parts = { parts_each };
}
