//! A message as text, for logs.

use crate::message::Message;
use std::fmt;

/// The class, the method as a number, the transaction ID, and the type and the length in bytes of each seen attribute:
/// `Message(class: Request, method: 3, transaction: 0x000102030405060708090a0b, attributes: [0x0019 (4 bytes)])`.
/// No value of an attribute is printed, so neither is the name of the user.
impl fmt::Display for Message<'_> {
    fn fmt<W: fmt::Write>(&self, f: &mut fmt::Formatter<W>) -> fmt::Result {
        let class = self.class();
        let method = self.method().value;
        let transaction = self.transaction_id();
        write!(
            f,
            "Message(class: {class:?}, method: {method}, transaction: {transaction}, attributes: ["
        )?;
        let mut is_first = true;
        for (_, attribute) in self.iter_attributes() {
            if !is_first {
                write!(f, ", ")?;
            }
            is_first = false;
            let number = attribute.attribute_type.value;
            let len = attribute.value.len();
            write!(f, "0x{number:04x} ({len} bytes)")?;
        }
        write!(f, "])")
    }
}
