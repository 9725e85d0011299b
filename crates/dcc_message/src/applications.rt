//! The Application-Ids that the server knows (RFC 6733, section 2.4, and RFC 8506, section 1.3).

/// The messages of the base protocol, which are common to all applications.
pub const BASE: u32 = 0;
/// Credit control.
pub const CREDIT_CONTROL: u32 = 4;
/// Relays: any application.
pub const RELAY: u32 = 0xffff_ffff;
