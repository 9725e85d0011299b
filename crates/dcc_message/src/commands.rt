//! The Command Codes that the server knows (RFC 6733, section 3.1, and RFC 8506, section 3).

/// Capabilities-Exchange (RFC 6733, section 5.3).
pub const CAPABILITIES_EXCHANGE: u32 = 257;
/// Credit-Control (RFC 8506, sections 3.1 and 3.2).
pub const CREDIT_CONTROL: u32 = 272;
/// Device-Watchdog (RFC 6733, section 5.5).
pub const DEVICE_WATCHDOG: u32 = 280;
/// Disconnect-Peer (RFC 6733, section 5.4).
pub const DISCONNECT_PEER: u32 = 282;
