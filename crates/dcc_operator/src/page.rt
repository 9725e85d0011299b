//! The pages of a subscriber.

/// What a page shows of an account.
#[derive(Clone, Copy, Debug, PartialEq, Eq)]
pub enum Page {
    /// A line for each entry in the books, in order, and how the account stands.
    Ledger,
    /// A line each for the funds, the reserved money, the free money and the overrun.
    Balance,
}
