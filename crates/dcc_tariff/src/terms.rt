//! The terms by which accounts are judged and answers are written.

use std::marker::Model;

/// The terms of a plan.
#[derive(Clone, Copy, Debug, PartialEq, Eq)]
pub struct Terms {
    /// The seconds for which a grant may be used, 1 to 1,000,000 (Validity-Time, RFC 8506, section 8.33).
    pub validity: u32,
    /// The seconds for which a session is held after its last request, 1 to 1,000,000.
    pub hold: u32,
    /// The currency's number in ISO 4217, 0 to 999 (Currency-Code, RFC 8506, section 8.11).
    pub currency: u32,
    /// The exponent of ten of a minor unit in the currency, -9 to 9 (Exponent, RFC 8506, section 8.9).
    pub exponent: i32,
}

impl Model for Terms {
    ghost use Rattle.dcc_tariff.specs.Terms.{TermsView, AreTerms};

    ghost Value = { TermsView };

    ghost view = { λ t. record { validity = t.validity; hold = t.hold; currency = t.currency; exponent = t.exponent } };

    ghost invariant = { λ t. AreTerms (record { validity = t.validity; hold = t.hold; currency = t.currency; exponent = t.exponent }) };

    ghost inverse = { λ v. record { validity = v.validity; hold = v.hold; currency = v.currency; exponent = v.exponent } };
}
