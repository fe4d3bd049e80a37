//! Tests of tables of records by their public calls: keys, questions and changes of a `Table`, blocks of a `NameTable`,
//! subscriptions, and the sets that a client holds.
//!
//! Nothing stands on this crate. Contracts already say what each call answers; the tests show examples of it, and what
//! no contract says, as that names which come and go leave no empty block behind (`name_tables.rt`). `tables.rt` is
//! about `rrset`, `asked.rt` about `subscr` and `mirror`, and `made.rt` makes questions and records from texts.
#![tactic(auto)]

#[cfg(test)]
mod asked;
#[cfg(test)]
mod made;
#[cfg(test)]
mod name_tables;
#[cfg(test)]
mod tables;
