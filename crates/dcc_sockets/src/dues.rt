//! What is due by time in a server that stays.

ghost use Rattle.std.specs.Prelude.{◌≡◌};
ghost use Rattle.dcc_sockets.specs.Dues.{due_after, later};

use dcc_rounds::Tick;

/// So many seconds after the last audit an audit is due.
const AUDIT_SECONDS: u64 = 60;

/// So many seconds have passed since the last sweep and since the last audit, or since the beginning. A sweep is an audit too.
#[derive(Clone, Copy)]
pub(crate) struct Dues {
    swept: u64,
    audited: u64,
}

impl Dues {
    /// Nothing has passed.
    pub fn new() -> Dues
        ensures { result ≡ record { swept = 0; audited = 0 } }
    {
        Dues {
            swept: 0,
            audited: 0,
        }
    }

    /// What is due so many seconds later: a sweep each `every` seconds, where 0 is never, or else an audit. The seconds of what is due begin anew.
    pub fn pass(&mut self, seconds: u64, every: u64) -> Tick
        ensures { (result, self.new) ≡ due_after every (later self.old.swept seconds) (later self.old.audited seconds) }
    {
        self.swept = self.swept.saturating_add(seconds);
        self.audited = self.audited.saturating_add(seconds);
        if every > 0 && self.swept >= every {
            *self = Dues::new();
            return Tick::Sweep;
        }
        if self.audited >= AUDIT_SECONDS {
            self.audited = 0;
            return Tick::Audit;
        }
        Tick::Nothing
    }
}
