//! The messages in octets that go out.

ghost use Rattle.std.specs.Prelude.{◌≡◌, ◌≤◌, ℕ, List, drop, length};
ghost use Rattle.dcc_sockets.specs.Messages.{Continue, ends_behind, left_behind, stated};

use dcc_octets::u24_at;

/// Counts the messages that go out whole, over writes that may take parts of them.
#[derive(Drop)]
pub(crate) struct Messages {
    /// So many octets of the last message are left.
    left: usize,
}

impl Messages {
    /// No message has begun to go out.
    pub fn new() -> Messages
        ensures { result.left ≡ 0 }
    {
        Messages { left: 0 }
    }

    /// Behind a write that took so many of these octets. If they go on with the last message and then have whole messages alone, it returns how many messages
    /// ended.
    pub fn took(&mut self, octets: &[u8], taken: usize) -> u64
        ensures ended { (messages : List (List ℕ)) → Continue self.old.left messages octets.now → taken ≤ length octets.now
            → result ≡ ends_behind self.old.left taken messages }
        ensures left { (messages : List (List ℕ)) → Continue self.old.left messages octets.now → taken ≤ length octets.now
            → self.new.left ≡ left_behind self.old.left taken messages }
    {
        let mut ended = 0u64;
        let mut rest = octets;
        let mut more = taken;
        while more > 0 {
            if self.left == 0 {
                self.left = length_of(rest);
            }
            let step = self.left.min(more);
            self.left -= step;
            more -= step;
            rest = behind(rest, step);
            if self.left == 0 {
                ended = ended.saturating_add(1);
            }
        }
        ended
    }
}

/// The octets behind so many of these.
fn behind(octets: &[u8], count: usize) -> &[u8]
    ensures { result.now ≡ drop count octets.now }
{
    octets.get(count..).unwrap_or(&[])
}

/// The length of the message with which these octets begin (RFC 6733 section 3): at least one octet.
fn length_of(octets: &[u8]) -> usize
    ensures { result ≡ stated octets.now }
{
    if octets.len() < 4 {
        return 1;
    }
    (u24_at(octets, 1) as usize).max(1)
}
