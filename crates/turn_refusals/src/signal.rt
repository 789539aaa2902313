//! Where the calls of a client begin and end, for `tools/check/refuse`.

use std::io::Write;

/// Signals that a call of the client begins, or that it has ended: a write of no bytes, which does nothing else.
pub fn signal<W: Write>(writer: &mut W) {
    let _ = writer.write(&[]);
}
