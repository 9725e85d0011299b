//! The bits of a message's Command Flags (RFC 6733, section 3). The four bits behind them are reserved and ignored.

/// R: the message is a request, and else an answer.
pub const REQUEST: u8 = 0x80;
/// P: the message may be relayed or redirected.
pub const PROXIABLE: u8 = 0x40;
/// E: the answer reports a protocol error (RFC 6733, section 7.2).
pub const ERROR: u8 = 0x20;
/// T: the request may have been sent before.
pub const RETRANSMITTED: u8 = 0x10;
