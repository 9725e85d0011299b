//! Numbers as octets, the highest octet first.

ghost use Rattle.std.specs.Prelude.{◌≡◌, ◌+◌, ◌<◌, ◌≤◌, ◌^◌, ◌++◌, length, take, drop};
ghost use Rattle.std.specs.Int.{w32, w64, bytes_high_first};
ghost use Rattle.dcc_octets.specs.Numbers.{number_in, u24_at, u32_at};

/// The number in exactly four octets. None if there are fewer or more.
pub fn u32_in(octets: &[u8]) -> Option<u32>
    ensures { result ≡ number_in w32 octets.now }
{
    match octets {
        [a, b, c, d] => Some(u32::from_be_bytes([*a, *b, *c, *d])),
        _ => None,
    }
}

/// The number in exactly eight octets. None if there are fewer or more.
pub fn u64_in(octets: &[u8]) -> Option<u64>
    ensures { result ≡ number_in w64 octets.now }
{
    match octets {
        [a, b, c, d, e, f, g, h] => { Some(u64::from_be_bytes([*a, *b, *c, *d, *e, *f, *g, *h])) }
        _ => None,
    }
}

/// The number in the three octets from `at` on, which have to be there.
pub fn u24_at(octets: &[u8], at: usize) -> u32
    requires { at + 3 ≤ length octets.now }
    ensures value { result ≡ u24_at octets.now at }
    ensures below { result < 2 ^ 24 }
{
    u32::from_be_bytes([0, octets[at], octets[at + 1], octets[at + 2]])
}

/// The number in the four octets from `at` on, which have to be there.
pub fn u32_at(octets: &[u8], at: usize) -> u32
    requires { at + 4 ≤ length octets.now }
    ensures { result ≡ u32_at octets.now at }
{
    u32::from_be_bytes([octets[at], octets[at + 1], octets[at + 2], octets[at + 3]])
}

/// The three octets of a number below 2^24.
pub fn u24_octets(number: u32) -> [u8; 3]
    requires { number < 2 ^ 24 }
    ensures { result ≡ bytes_high_first 3 number }
{
    let [_, high, middle, low] = number.to_be_bytes();
    [high, middle, low]
}

/// Writes octets over as many octets of `all` from `at` on, which have to be there.
pub fn put_over(all: &mut [u8], at: usize, octets: &[u8])
    requires { at + length octets.now ≤ length all.old }
    ensures { all.new ≡ take at all.old ++ (octets.now ++ drop (at + length octets.now) all.old) }
{
    all[at..at + octets.len()].copy_from_slice(octets);
}
