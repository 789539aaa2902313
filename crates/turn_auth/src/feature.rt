//! Features that a client may be configured to use.

/// Whether the user name is hidden from observers: a request then carries its hash, USERHASH, in its place
/// (RFC 8489, section 14.4).
#[derive(Clone, Copy, Debug, Default, PartialEq, Eq)]
pub enum Feature {
    /// As the server offers it. No offer is read, so this is the same as `Disabled` (our choice).
    #[default]
    Auto,
    /// Never.
    Disabled,
    /// Always.
    Required,
}
