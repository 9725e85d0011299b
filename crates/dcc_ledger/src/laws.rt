//! The laws of the ledger. Each function does nothing: it has its law as its contract.

ghost use Rattle.dcc_ledger.specs.Laws.{MomentsAreReadBack, NamesAreApart};

/// A plan reads the text of a moment in the ledger as the same moment: both have the same form of date and time.
pub fn moments_are_read_back()
    ensures { MomentsAreReadBack }
{}

/// Two names of entries with the same text are equal: the ledger distinguishes each session and each ticket from every other.
pub fn names_are_apart()
    ensures { NamesAreApart }
{}
