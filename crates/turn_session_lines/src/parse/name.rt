//! The calls of a session, by their names.

ghost use Rattle.std.specs.Prelude.{◌≡◌};
ghost use Rattle.turn_session_lines.specs.Call.{is_of_client, key_calls, name_of, named, own_name_of, plain_calls, report_calls};

/// The calls of a session.
#[derive(Clone, Copy, Debug, PartialEq, Eq)]
pub enum Name {
    /// `poll`, `transmit`, `event`, `recv`, `poll_recv`, `send`, `have` or `socket`: the client has it too, with the same arguments.
    OfClient,
    /// A call that only a session has.
    Own(OwnName),
}

/// The calls that only a session has.
#[derive(Clone, Copy, Debug, PartialEq, Eq)]
pub enum OwnName {
    /// A call for a key.
    OfKey(KeyName),
    /// A call without arguments.
    Plain(PlainName),
    /// A report of the caller.
    Report(ReportName),
    /// `closed`, with the ends of a data connection and the number of an error.
    Closed,
}

/// The calls for a key.
#[derive(Clone, Copy, Debug, PartialEq, Eq)]
pub enum KeyName {
    /// `request`.
    Request,
    /// `request-for-data`: the key may rest.
    RequestForData,
    /// `keep`: it is kept from now on.
    Keep,
    /// `release`: it is let go.
    Release,
    /// `grant`: how far it has come.
    Grant,
}

/// The calls without arguments.
#[derive(Clone, Copy, Debug, PartialEq, Eq)]
pub enum PlainName {
    /// `next`: what is due.
    Next,
    /// `grants`: what was granted.
    Grants,
    /// `until`: until when the server may keep the allocation.
    Until,
    /// `counters`: the requests that were sent, in numbers.
    Counters,
    /// `check`.
    Check,
    /// `abandon`.
    Abandon,
}

/// The reports of the caller.
#[derive(Clone, Copy, Debug, PartialEq, Eq)]
pub enum ReportName {
    /// `error`, with the number of an error of the socket.
    Error,
    /// `ended`, with the number of the error that ended the stream, or `-`.
    Ended,
    /// `no-route`, with the number of an error.
    NoRoute,
    /// `moved`, with the number of an error: the host no longer has the address of the socket.
    Moved,
    /// `full`: the stream took no bytes.
    Full,
    /// `room`: the stream takes bytes again.
    Room,
    /// `written`: bytes of a data connection have left.
    Written,
    /// `leave`.
    Leave,
}

/// The call of this name.
pub fn parse_name(text: &[u8]) -> Option<Name>
    ensures { result ≡ name_of text.now }
{
    if is_of_client(text) {
        return Some(Name::OfClient);
    }
    match parse_own_name(text) {
        Some(own) => Some(Name::Own(own)),
        None => None,
    }
}

/// Whether a session has a call of this name in common with its client.
fn is_of_client(text: &[u8]) -> bool
    ensures { result ≡ is_of_client text.now }
{
    text == b"poll".as_slice()
        || text == b"transmit".as_slice()
        || text == b"recv".as_slice()
        || text == b"poll_recv".as_slice()
        || text == b"send".as_slice()
        || text == b"have".as_slice()
        || text == b"event".as_slice()
        || text == b"socket".as_slice()
}

/// A call that only a session has.
fn parse_own_name(text: &[u8]) -> Option<OwnName>
    ensures { result ≡ own_name_of text.now }
{
    if let Some(name) = parse_key_name(text) {
        return Some(OwnName::OfKey(name));
    }
    if let Some(name) = parse_plain_name(text) {
        return Some(OwnName::Plain(name));
    }
    if let Some(name) = parse_report_name(text) {
        return Some(OwnName::Report(name));
    }
    if text == b"closed".as_slice() {
        return Some(OwnName::Closed);
    }
    None
}

/// A call for a key.
fn parse_key_name(text: &[u8]) -> Option<KeyName>
    ensures { result ≡ named key_calls text.now }
{
    if text == b"request".as_slice() {
        return Some(KeyName::Request);
    }
    if text == b"request-for-data".as_slice() {
        return Some(KeyName::RequestForData);
    }
    if text == b"keep".as_slice() {
        return Some(KeyName::Keep);
    }
    if text == b"release".as_slice() {
        return Some(KeyName::Release);
    }
    if text == b"grant".as_slice() {
        return Some(KeyName::Grant);
    }
    None
}

/// A call without arguments.
fn parse_plain_name(text: &[u8]) -> Option<PlainName>
    ensures { result ≡ named plain_calls text.now }
{
    if text == b"next".as_slice() {
        return Some(PlainName::Next);
    }
    if text == b"grants".as_slice() {
        return Some(PlainName::Grants);
    }
    if text == b"until".as_slice() {
        return Some(PlainName::Until);
    }
    if text == b"counters".as_slice() {
        return Some(PlainName::Counters);
    }
    if text == b"check".as_slice() {
        return Some(PlainName::Check);
    }
    if text == b"abandon".as_slice() {
        return Some(PlainName::Abandon);
    }
    None
}

/// A report of the caller.
fn parse_report_name(text: &[u8]) -> Option<ReportName>
    ensures { result ≡ named report_calls text.now }
{
    if text == b"error".as_slice() {
        return Some(ReportName::Error);
    }
    if text == b"ended".as_slice() {
        return Some(ReportName::Ended);
    }
    if text == b"no-route".as_slice() {
        return Some(ReportName::NoRoute);
    }
    if text == b"moved".as_slice() {
        return Some(ReportName::Moved);
    }
    if text == b"full".as_slice() {
        return Some(ReportName::Full);
    }
    if text == b"room".as_slice() {
        return Some(ReportName::Room);
    }
    if text == b"written".as_slice() {
        return Some(ReportName::Written);
    }
    if text == b"leave".as_slice() {
        return Some(ReportName::Leave);
    }
    None
}
