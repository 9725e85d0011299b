//! Moments in the text of a plan.

ghost use Rattle.std.specs.Prelude.{◌≡◌};
ghost use Rattle.std.specs.List.{list_all, zip};
ghost use Rattle.dcc_tariff.specs.PlanTexts.{has_form, fits_at, moment_of};

use crate::limits::LAST_SECOND;
use jiff::Timestamp;

/// The form of a moment's text, with a 0 for each digit.
const FORM: &[u8] = b"0000-00-00T00:00:00Z";

/// The seconds since 1970 of a UTC date and time, as `2025-06-01T00:00:00Z`. None if the text has another form, or names
/// no moment from 1970 to 2099-12-31T23:59:59Z.
#[tactic(auto, unfolding(crate::specs::PlanTexts::moment_of))]
pub(crate) fn moment_of(text: &str) -> Option<u64>
    ensures { result ≡ moment_of text.now }
{
    let octets = text.as_bytes();
    if !has_form(FORM, octets) || octets[17] > b'5' {
        return None;
    }
    let Ok(instant) = text.parse::<Timestamp>() else {
        return None;
    };
    let seconds = instant.as_second();
    if 0 <= seconds && seconds <= LAST_SECOND as i64 {
        Some(seconds as u64)
    } else {
        None
    }
}

/// Whether the text has the form's characters, and any digit for each 0 of the form.
fn has_form(form: &[u8], text: &[u8]) -> bool
    ensures { result ≡ has_form form.now text.now }
{
    text.len() == form.len() && fits(form, text)
}

fn fits(form: &[u8], text: &[u8]) -> bool
    ensures { result ≡ list_all (λ pair. fits_at pair.0 pair.1) (zip form.now text.now) }
{
    form.iter().zip(text).all(|(f, c)| fits_at(*f, *c))
}

fn fits_at(form: u8, c: u8) -> bool
    ensures { result ≡ fits_at form c }
{
    if form == b'0' {
        c.is_ascii_digit()
    } else {
        c == form
    }
}
