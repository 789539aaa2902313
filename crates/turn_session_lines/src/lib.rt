//! The lines that describe a session and its calls, and the lines that answer them.
//!
//! [`parse_session_head`](head::parse_session_head) parses the line that describes a session's client and its settings,
//! [`parse_session_call`](parse::parse_session_call) the line of a call, [`reply_to`](reply::reply_to) makes the call, and
//! [`answer_text`](print::answer_text) prints its answer:
//!
//! ```text
//! session udp 192.168.0.1:1000 10.0.0.2:2000 udp 4 sha1 auto 75736572 70617373 <seed>     the head
//! 1000000000 request permission 10.0.0.3                                                  a call, at 1 s
//! ticket 1                                                                                its answer
//! ```
//!
//! `turn_session_live` answers each line as it arrives; its files `stdin` and `stdout` have a whole session. Heads, calls and
//! fields that are not described here are those of a client (`turn_lines`, docs/rattle/LINES.md).
//!
//! # The head
//!
//! `session`, then optionally the settings, then the head of a client, whose requests are always timed from when they are sent.
//! The session begins at time 0. The transaction IDs of its checks are drawn from SEED with the bits of the first byte flipped.
//!
//! The settings are `PROBE,CHECKS,IDLE,LEAVE`, times in nanoseconds. Without the field they are `0,0,0,2000000000` over UDP and
//! `15000000000,0,0,2000000000` over TCP.
//!
//! - PROBE: the time between two probes of the path, 0 for none
//! - CHECKS: 1 if errors and silence make the session ask whether the server knows the allocation, otherwise 0
//! - IDLE: after how long without data a peer is idle, 0 for never
//! - LEAVE: how long leaving takes at most
//!
//! # The calls
//!
//! `poll`, `transmit`, `recv`, `poll_recv`, `have` and `socket` have the lines and answers of the client's; `socket` with LOCAL
//! `-` reports the error number 0. The others are
//!
//! - `event`: `none`, or an event
//! - `next`, what is due: the answer of `poll` with a data connection to open or close, or else that of `transmit` with a packet,
//!   or else an event, or else the answer of `poll`
//! - `send TRANSPORT PEER BYTES`: `send TRANSPORT FROM TO BYTES`, a refusal of the client's `send`, `refused too-long`, or if the
//!   peer is not permitted what `request-for-data permission IP` answers
//! - `request KEY`, `request-for-data KEY`: `granted`, `ticket N`, `resting N SAID`, `refused REASON` or `ended WHY`
//! - `keep KEY`, `release KEY`: `ok` or `refused not-granted`
//! - `grant KEY`: `none`, or what `request-for-data KEY` would answer without a request
//! - `grants`: `list COUNT`, then ` KEY kept` or ` KEY released` for each
//! - `until`: `none`, or `until N`, the time until which the server may keep the allocation
//! - `check`: `ticket N`, `refused no-allocation` or `ended WHY`
//! - `closed LOCAL PEER TAG`: `ok`; the data connection to PEER was closed
//! - `written`: `ok`; bytes of a data connection have left
//! - `error TAG`, `ended TAG` (`-` if the server closed the stream), `no-route TAG`, `moved TAG`, `full`, `room`, `leave`: `ok`
//! - `abandon`: `none`, or `send TRANSPORT FROM TO BYTES`
//!
//! A line that is no call is answered as by `turn_replay`, as in `line 7: bad call`, and changes nothing; data of any length is a
//! call.
//!
//! # The fields
//!
//! - KEY: `permission IP`, `channel PEER` or `connect PEER`
//! - TAG: the caller's number of an error, a decimal up to 2^32 - 1
//! - SAID: `-`, or an error response: its code or `none`, `taken` if the client accepted it and `hint` if not, its reason phrase
//!   as bytes, and the alternate server or `-`
//! - REASON: `no-allocation`, `no-permission`, `already-exists`, `expired N`, `not-granted` or `no-memory`
//! - an event: `heard`; `up RELAYED MAPPED` (`-` if the server does not say it); `also RELAYED`; `family-failed FAMILY SAID`;
//!   `outcome N KEY OUTCOME`; `lost KEY OUTCOME`; `expired KEY`; `refreshed KEY` or `refreshed allocation`;
//!   `checked N yes MAPPED` or `checked N no`; `moved MAPPED`; `ending WHY`; `over WHY`
//! - OUTCOME: `granted`, `refused SAID`, `timed-out SAID`, `not-made REASON`, `not-opened TAG`, `not-bound` or `ended WHY`
//! - WHY: `closed`, `silent N` (nanoseconds), `refused SAID`, `wrong-credentials SAID`, `unauthenticated`, `no-usable-address`,
//!   `too-many-challenges CODE`, `not-renewed SAID`, `short-renewal SECONDS`, `renewal-silent`, `forgotten SAID`,
//!   `credentials-refused`, `grant-silent KEY`, `unanswered COUNT`, `socket-errors TAG`, `socket-ended TAG`, `stream-full`,
//!   `not-a-stream`, `no-route TAG`, `host-moved TAG` or `no-memory`
#![tactic(auto)]

mod arguments;
pub mod call;
pub mod head;
pub mod parse;
pub mod print;
pub mod reply;
