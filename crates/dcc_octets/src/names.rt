//! Limits on octets that are a name.

ghost use Rattle.std.specs.Prelude.{◌≡◌};
ghost use Rattle.dcc_octets.specs.Names.{are_visible, is_short, is_name};

/// The first visible character of ASCII, an exclamation mark. Only controls and the space stand before it.
pub const FIRST_VISIBLE: u8 = 0x21;

/// The last visible character of ASCII, a tilde.
pub const LAST_VISIBLE: u8 = 0x7E;

/// The most octets of a name: of a Session-Id, of a host or of a realm.
pub const MAX_NAME: usize = 255;

/// Whether each octet is a visible character of ASCII, 0x21 to 0x7E. It is true without octets.
pub fn are_visible(octets: &[u8]) -> bool
    ensures { result ≡ are_visible octets.now }
{
    octets
        .iter()
        .all(|octet| FIRST_VISIBLE <= *octet && *octet <= LAST_VISIBLE)
}

/// Whether there are 1 to 255 octets, of any value.
pub fn is_short(octets: &[u8]) -> bool
    ensures { result ≡ is_short octets.now }
{
    1 <= octets.len() && octets.len() <= MAX_NAME
}

/// Whether there are 1 to 255 octets, each a visible character of ASCII: the name of a host or of a realm as this server
/// takes it (a DiameterIdentity, RFC 6733, section 4.3.1).
pub fn is_name(octets: &[u8]) -> bool
    ensures { result ≡ is_name octets.now }
{
    is_short(octets) && are_visible(octets)
}
