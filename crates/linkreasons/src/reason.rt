//! Why a link is asked something.

use rrset::Question;

/// A subscription of a session, as a reason to ask a link.
#[derive(Debug, Drop)]
pub struct Reason {
    /// The subscription's ID.
    pub id: u16,
    /// The link, counted from 0.
    pub link: usize,
    /// What the link is asked: the name under `local.` in lower case, the kind, class IN.
    pub question: Question,
}
