//! Rows in tables by name, so that what a change costs does not grow with the names beside it, and an index that counts
//! steps.
//!
//! **Model.** A node is a name in lower case with the table of its rows (`Node`), which may be empty. Nodes stand in
//! the order of names, in blocks of few (`Block`). Whatever the blocks are, callers see one list of rows in key order:
//! `all_rows` in `specs/Nodes`. The first eight octets of a name are kept as a number (`specs/FirstOctets`), which
//! tells most names apart at once.
//!
//! **Flow.** `NameTable` (`name_table.rt`) hands a call to the blocks (`blocks.rt`), which look for the block of the
//! name. They look first where the last name was found. The block (`block.rt`) finds the node (`node.rt`), by the
//! comparisons of `order.rt`. A full block is cut in two. `reserve_for` makes room for a list of changes beforehand
//! (`reserving.rt`). `give_back` drops names without rows, once they are more than one of eight. `Index` (`index.rt`)
//! is such a table whose look-ups and changes count steps. `uniting.rt` leads from a `Table` to a `NameTable` and back.
//!
//! **Begin** with `specs/Nodes`, then the calls of `name_table.rt`. `specs/Blocks` has what the blocks are, for the
//! inside and for `linkcache`.
//!
//! **Change.** The size of blocks, and where a search begins, are private: contracts see the rows and the room. `Block`
//! and `Node` are public, as `linkcache` walks them name by name. That `put` takes no memory after `reserve_for` must
//! stay, since accepted changes are made that way. `give_back` may lose room that was made, so call it where no plan is
//! pending.
//!
//! **Stand on it**: `zoneupdate` (the rows of a zone), `linkcache` (the records heard on a link), `recordindex` (an
//! `Index` of all records), `coalesce` and `pushsession` (look up in that index), `history` (puts all rows into one
//! table).
#![tactic(auto)]

mod block;
mod blocks;
mod index;
mod name_table;
mod node;
mod order;
mod reserving;
mod uniting;

pub use block::Block;
pub use index::Index;
pub use name_table::NameTable;
pub use node::Node;
pub use order::first_of;
pub use uniting::{by_names, put_all_names};
