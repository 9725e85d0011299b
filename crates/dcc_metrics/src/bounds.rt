//! The buckets of times.

ghost use Rattle.std.specs.Prelude.{◌≡◌, nat_le, position};
ghost use Rattle.dcc_metrics.specs.Times.{bucket_of, first_from};

/// The upper bounds of all buckets but the last, in microseconds.
pub const BOUNDS: [u64; 14] = [
    100, 250, 500, 1_000, 2_500, 5_000, 10_000, 25_000, 50_000, 100_000, 250_000, 500_000,
    1_000_000, 2_500_000,
];

/// The index of the first bucket that a time of so many microseconds fits. The last bucket has no bound.
pub(crate) fn bucket_of(micros: u64) -> usize
    ensures { result ≡ bucket_of micros }
{
    first_from(&BOUNDS, micros)
}

/// The index of the first of these bounds that isn't below a time; their number if each is below it.
fn first_from(bounds: &[u64], micros: u64) -> usize
    ensures { result ≡ first_from bounds.now micros }
{
    match place_from(bounds, micros) {
        Some(index) => index,
        None => bounds.len(),
    }
}

/// The index of the first of these bounds that isn't below a time.
fn place_from(bounds: &[u64], micros: u64) -> Option<usize>
    ensures { result ≡ position (λ bound. nat_le micros bound) bounds.now }
{
    bounds.iter().position(|bound| micros <= *bound)
}
