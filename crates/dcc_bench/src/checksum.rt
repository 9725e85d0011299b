//! Checksums: FNV-1a in 64 bits, by which two programs show that they wrote the same octets.

/// The checksum of no octets.
pub const START: u64 = 0xcbf2_9ce4_8422_2325;

const PRIME: u64 = 0x0000_0100_0000_01b3;

/// The checksum of what was summed before and of these octets.
pub fn summed(sum: u64, octets: &[u8]) -> u64 {
    let mut sum = sum;
    for octet in octets {
        sum = (sum ^ u64::from(*octet)).wrapping_mul(PRIME);
    }
    sum
}

/// A mark of an answer that costs next to nothing, so that no part of it can be left out while it is timed: one octet.
pub fn marked(mark: u64, octets: &[u8], place: u32) -> u64 {
    let octet = octets.get((place & 127) as usize).copied().unwrap_or(0);
    mark.rotate_left(5) ^ u64::from(octet)
}
