//! The shard of a subscriber.

ghost use Rattle.std.specs.Prelude.{◌≡◌, ◌<◌};
ghost use Rattle.dcc_shard.specs.Routes.{shard_of};

use dcc_act::Sub;

/// The index of the shard that keeps a subscriber, of `count` shards: the sum of the subscriber's type and of the octets of its data,
/// modulo `count`. The condition: there is at least one shard.
pub fn shard_of(sub: &Sub, count: usize) -> usize
    requires { 0 < count }
    ensures value { result ≡ shard_of sub.now count }
    ensures within { result < count }
{
    let mut sum = usize::from(sub.kind());
    for octet in sub.name() {
        sum += usize::from(*octet);
    }
    sum % count
}
