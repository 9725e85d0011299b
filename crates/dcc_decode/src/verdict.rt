//! What an answer says, in words.

use crate::lists::read_as_far;
use crate::names::put_avp_name;
use crate::values::value_name;
use crate::words::{put_count, put_part, put_plain, put_price};
use dcc_avp::{Avp, codes};
use std::alloc::{AllocError, Global};
use std::fmt::Write;

/// The Result-Code of a request that was not served.
const TOO_BUSY: u32 = 3004;

/// The kinds of units that are granted, each with the word for it.
const UNITS: [(u32, &str); 5] = [
    (codes::CC_TOTAL_OCTETS, "octets"),
    (codes::CC_INPUT_OCTETS, "octets in"),
    (codes::CC_OUTPUT_OCTETS, "octets out"),
    (codes::CC_TIME, "seconds"),
    (codes::CC_SERVICE_SPECIFIC_UNITS, "units"),
];

/// Appends the line that says what an answer of these AVPs comes to.
pub(crate) fn put_verdict(
    text: &mut String,
    alloc: Global,
    avps: &[Avp<'_>],
) -> Result<(), AllocError> {
    match number_in(avps, codes::RESULT_CODE) {
        Some(code) if is_success(code) => put_success(text, alloc, avps)?,
        Some(code) => put_refusal(text, alloc, avps, code)?,
        None => text.push_str("no Result-Code")?,
    }
    text.push('\n')
}

/// Whether a Result-Code is of the class of successes (RFC 6733, section 7.1).
fn is_success(code: u32) -> bool {
    code / 1000 == 2
}

/// The first AVP with this code and no vendor.
fn first_of<'a, 'b>(avps: &'b [Avp<'a>], code: u32) -> Option<&'b Avp<'a>> {
    avps.iter().find(|avp| avp.has_code(code))
}

/// The number of the first AVP with this code, if it is one of four octets.
fn number_in(avps: &[Avp<'_>], code: u32) -> Option<u32> {
    first_of(avps, code)?.as_u32().ok()
}

/// The AVPs of the first group with this code, as far as they can be read; none where there is no such group.
fn group_in<'a>(alloc: Global, avps: &[Avp<'a>], code: u32) -> Result<Vec<Avp<'a>>, AllocError> {
    match first_of(avps, code) {
        Some(avp) => {
            let crate::lists::Found { avps, .. } = read_as_far(alloc, avp.value())?;
            Ok(avps)
        }
        None => Ok(Vec::new(alloc)),
    }
}

/// Appends what is said of a request that was served: what it was granted or told, and else that it was a success.
fn put_success(text: &mut String, alloc: Global, avps: &[Avp<'_>]) -> Result<(), AllocError> {
    let mut words = String::new(alloc);
    put_own(&mut words, alloc, avps)?;
    put_services(&mut words, alloc, avps)?;
    put_balance(&mut words, avps)?;
    put_cost(&mut words, alloc, avps)?;
    if words.is_empty() {
        return text.push_str("success");
    }
    text.push_str(words.as_str())
}

/// Appends what is granted outside of the groups of services.
fn put_own(words: &mut String, alloc: Global, avps: &[Avp<'_>]) -> Result<(), AllocError> {
    if first_of(avps, codes::GRANTED_SERVICE_UNIT).is_none() {
        return Ok(());
    }
    let grant = grant_words(alloc, avps)?;
    put_part(words, grant.as_str())
}

/// Appends what each service is told, with its rating group where there are several.
fn put_services(words: &mut String, alloc: Global, avps: &[Avp<'_>]) -> Result<(), AllocError> {
    let code = codes::MULTIPLE_SERVICES_CREDIT_CONTROL;
    let has_several = avps.iter().filter(|avp| avp.has_code(code)).count() > 1;
    for avp in avps {
        if avp.has_code(code) {
            let service = read_as_far(alloc, avp.value())?.avps;
            let said = service_words(alloc, service.as_slice(), has_several)?;
            put_part(words, said.as_str())?;
        }
    }
    Ok(())
}

/// What a service is told.
fn service_words(alloc: Global, avps: &[Avp<'_>], is_named: bool) -> Result<String, AllocError> {
    let mut words = String::new(alloc);
    if is_named && let Some(group) = number_in(avps, codes::RATING_GROUP) {
        write!(words, "group {group}: ")?;
    }
    match number_in(avps, codes::RESULT_CODE) {
        Some(code) if !is_success(code) => put_refusal(&mut words, alloc, avps, code)?,
        _ => {
            let grant = grant_words(alloc, avps)?;
            words.push_str(grant.as_str())?;
        }
    }
    Ok(words)
}

/// The grant among AVPs: its units, and whether they are the last ones.
fn grant_words(alloc: Global, avps: &[Avp<'_>]) -> Result<String, AllocError> {
    let mut words = String::new(alloc);
    let units = group_in(alloc, avps, codes::GRANTED_SERVICE_UNIT)?;
    for (code, unit) in UNITS {
        if let Some(count) = count_in(units.as_slice(), code) {
            words.push_str(if words.is_empty() {
                "granted "
            } else {
                " and "
            })?;
            put_count(&mut words, alloc, count)?;
            write!(words, " {unit}")?;
        }
    }
    if words.is_empty() {
        words.push_str("success")?;
    }
    if first_of(avps, codes::FINAL_UNIT_INDICATION).is_some() {
        words.push_str(", final")?;
    }
    Ok(words)
}

/// The count of units of the first AVP with this code, of eight octets or of four.
fn count_in(avps: &[Avp<'_>], code: u32) -> Option<u64> {
    let avp = first_of(avps, code)?;
    match avp.as_u64() {
        Ok(count) => Some(count),
        Err(_) => avp.as_u32().ok().map(u64::from),
    }
}

/// Appends what is told of a balance.
fn put_balance(words: &mut String, avps: &[Avp<'_>]) -> Result<(), AllocError> {
    match number_in(avps, codes::CHECK_BALANCE_RESULT) {
        Some(0) => put_part(words, "enough credit"),
        Some(1) => put_part(words, "no credit"),
        _ => Ok(()),
    }
}

/// Appends a price.
fn put_cost(words: &mut String, alloc: Global, avps: &[Avp<'_>]) -> Result<(), AllocError> {
    let cost = group_in(alloc, avps, codes::COST_INFORMATION)?;
    let value = group_in(alloc, cost.as_slice(), codes::UNIT_VALUE)?;
    let Some(digits) = first_of(value.as_slice(), codes::VALUE_DIGITS) else {
        return Ok(());
    };
    let Ok(digits) = digits.as_i64() else {
        return Ok(());
    };
    let exponent = exponent_in(value.as_slice());
    let currency = number_in(cost.as_slice(), codes::CURRENCY_CODE);
    let mut price = String::new(alloc);
    put_price(&mut price, digits, exponent, currency)?;
    put_part(words, price.as_str())
}

/// The Exponent of a value; 0 where there is none.
fn exponent_in(avps: &[Avp<'_>]) -> i32 {
    match first_of(avps, codes::EXPONENT) {
        Some(avp) => avp.as_i32().unwrap_or(0),
        None => 0,
    }
}

/// Appends that a request was refused, with its Result-Code and why; or that the server was busy.
fn put_refusal(
    text: &mut String,
    alloc: Global,
    avps: &[Avp<'_>],
    code: u32,
) -> Result<(), AllocError> {
    if code == TOO_BUSY {
        return write!(
            text,
            "busy {code}: the request was not served, and may be sent again"
        );
    }
    write!(text, "refused {code}")?;
    let failed = group_in(alloc, avps, codes::FAILED_AVP)?;
    match failed.as_slice() {
        [first, ..] => put_failed(text, alloc, code, first),
        [] => put_reason(text, code),
    }
}

/// Appends the name of a Result-Code, if it has one.
fn put_reason(text: &mut String, code: u32) -> Result<(), AllocError> {
    match value_name(codes::RESULT_CODE, code) {
        Some(name) => {
            text.push_str(": ")?;
            put_plain(text, name)
        }
        None => Ok(()),
    }
}

/// Appends what is wrong with the AVP that a refusal shows.
fn put_failed(
    text: &mut String,
    alloc: Global,
    code: u32,
    failed: &Avp<'_>,
) -> Result<(), AllocError> {
    let mut name = String::new(alloc);
    put_avp_name(&mut name, failed)?;
    let name = name.as_str();
    match code {
        5001 => write!(text, ": {name} is not supported"),
        5004 => write!(text, ": the value of {name} is not valid"),
        5005 => write!(text, ": {name} is missing"),
        5007 => write!(text, ": {name} contradicts another AVP"),
        5008 => write!(text, ": {name} is not allowed"),
        5009 => write!(text, ": {name} occurs too often"),
        5014 => write!(text, ": the length of {name} is not valid"),
        _ => {
            put_reason(text, code)?;
            write!(text, " ({name})")
        }
    }
}
