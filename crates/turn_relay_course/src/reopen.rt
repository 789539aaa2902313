//! Whether a relay that has ended is opened again.

/// Whether a relay that has ended is opened again.
#[derive(Clone, Copy, Debug, PartialEq, Eq)]
pub enum Reopen {
    /// It has one life. Until that has an address its servers are tried, each once, and at once when the one before it has failed.
    /// A try has no end of its own: it lasts until the server has answered, or is given up.
    Never,
    /// It is opened again, at its servers by turns, until another try can't mend it.
    Always,
}
