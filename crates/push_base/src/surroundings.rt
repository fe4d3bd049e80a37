//! What a server reaches.

use crate::{Clock, Datagrams, Doors, Line, Starter, Wire};

/// The kinds of the objects that a server reaches.
pub trait Surroundings {
    /// What the other end of a connection says.
    type Line: Line + Drop + Send + 'static;

    /// Where what is said to the other end of a connection goes.
    type Wire: Wire + Drop + Send + 'static;

    /// The datagrams of a link.
    type Links: Datagrams + Drop + Send + 'static;

    /// Where sessions come from.
    type Doors: Doors<Line = Self::Line, Out = Self::Wire>;

    /// The clock.
    type Clock: Clock + Drop + Send + 'static;

    /// What decides how jobs are started.
    type Starter: Starter;
}
