//! An act whose subscriber is sought.

use dcc_act::Act;
use dcc_answer::Proxies;
use dcc_message::Header;
use std::marker::Model;

/// An act that is asked of the subscriber who opened the session of an update or a termination. The answer is written under its
/// header, with its proxies. Contracts see it as a `SoughtView`.
#[derive(Debug, Drop)]
pub struct Sought {
    pub(crate) act: Act,
    pub(crate) header: Header,
    pub(crate) proxies: Proxies,
}

impl Model for Sought {
    ghost use Rattle.std.specs.Prelude.{◌≡◌, true};
    ghost use Rattle.dcc_dispatch.specs.Sought.{SoughtView, is_report};

    ghost Value = { SoughtView };

    ghost view = { λ s. record { act = s.act; header = s.header; proxies = s.proxies } };

    ghost invariant = { λ s. is_report s.act.kind ≡ true };
}
