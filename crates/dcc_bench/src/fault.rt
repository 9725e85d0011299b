//! Why a thing can't be measured.

/// Why a thing can't be measured.
#[derive(Clone, Copy)]
pub(crate) enum Fault {
    /// The words are none of the program's.
    Usage,
    Memory,
    Clock,
    /// Standard output or standard error takes nothing.
    Output,
    /// The sample isn't the request that is measured.
    Sample,
}

/// What is measured, or why it can't be.
pub(crate) type Measured<T> = Result<T, Fault>;

impl Fault {
    /// What is said of it.
    pub(crate) fn text(self) -> &'static str {
        match self {
            Fault::Usage => "usage: codec N | framer OCTETS PIECE | sample",
            Fault::Memory => "no memory",
            Fault::Clock => "no clock",
            Fault::Output => "no output",
            Fault::Sample => "no request",
        }
    }
}
