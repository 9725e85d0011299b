//! What goes through the lane to a shard's worker.

ghost use Rattle.std.specs.Prelude.{◌≡◌, true, is_some};
ghost use Rattle.dcc_model.specs.Keys.{request_key};

use dcc_act::Moment;
use dcc_running::Job;

/// A request, and the index of the place whose gateway is answered.
#[derive(Drop)]
pub(crate) struct Request {
    pub gate: usize,
    pub job: Job,
    /// When its message was read ([`Notices::ticks`](crate::Notices::ticks)).
    pub ticks: u64,
    ghost request: { is_some (request_key job.act.kind) ≡ true },
}

/// What a worker takes of its lane.
#[derive(Drop)]
pub(crate) enum Work {
    /// A request is made and answered.
    Request(Request),
    /// What is due at this moment is ended.
    Sweep(Moment),
    /// The worker's receipts are audited.
    Audit,
    /// The gateway at the place of this index asks for nothing more.
    End(usize),
    /// A sender puts nothing more.
    Over,
}
