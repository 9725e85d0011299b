//! The services of an answer.

ghost use Rattle.std.specs.Prelude.{◌≡◌, ◌≤◌, ◌+◌, ◌*◌, ◌<◌, ◌^◌, ◌++◌, Some, length, vec_len, map, option_map, OnOk};
ghost use Rattle.std.specs.List.{flat_map};
ghost use Rattle.std.specs.Option.{option_to_list};
ghost use Rattle.dcc_avp.specs.Spelling.{padded};
ghost use Rattle.dcc_avp.specs.declared.codes.TheConstants.{SERVICE_IDENTIFIER, MULTIPLE_SERVICES_CREDIT_CONTROL};
ghost use Rattle.dcc_tariff.specs.declared.tariff.UnitKind.TheVariants.{Time as Seconds};
ghost use Rattle.dcc_act.specs.Answers.{AreAnswers};
ghost use Rattle.dcc_credit.specs.Answers.{amount_avp, granted, service_parts, service_avps, single_final, single_validity};
ghost use Rattle.dcc_answer.specs.Avps.{grouped, sent32};
ghost use Rattle.dcc_answer.specs.Sizes.{Grows};

use crate::use_of_grants::{put_final, put_validity};
use dcc_act::{Form, Grant, MAX_IDS, RequestType, ServiceAnswer, ServiceAnswers};
use dcc_answer::{put_u32, put_u64};
use dcc_avp::{begin_group, codes, end_group, flags};
use dcc_tariff::{Terms, UnitKind};
use std::alloc::AllocError;

/// Appends the services of an answer, in their order.
pub(crate) fn put_services(
    out: &mut Vec<u8>,
    request: RequestType,
    terms: &Terms,
    services: &ServiceAnswers,
) -> Result<(), AllocError>
    ensures ok { OnOk result (out.new.items
        ≡ out.old.items ++ flat_map padded (flat_map (λ service. service_avps request terms.now service.form service) services.now)) }
    ensures limits { AreAnswers services.now }
    ensures grows { OnOk result (Grows (vec_len out.old) (vec_len out.new) 90_000) }
{
    for service in services.as_slice() {
        put_service(out, request, terms, service)?;
    }
    Ok(())
}

/// Appends one service: its grant alone for a service at the message's level, else a group of its own.
fn put_service(
    out: &mut Vec<u8>,
    request: RequestType,
    terms: &Terms,
    service: &ServiceAnswer,
) -> Result<(), AllocError>
    requires { length service.now.ids ≤ MAX_IDS }
    ensures ok { OnOk result (out.new.items
        ≡ out.old.items ++ flat_map padded (service_avps request terms.now service.now.form service.now)) }
    ensures grows { OnOk result (Grows (vec_len out.old) (vec_len out.new) (150 + 15 * length service.now.ids)) }
{
    match service.form {
        Form::Single => put_grant(out, service.grant),
        Form::Multi => put_group(out, request, terms, service),
    }
}

/// Appends a service's group (RFC 8506, section 8.16).
fn put_group(
    out: &mut Vec<u8>,
    request: RequestType,
    terms: &Terms,
    service: &ServiceAnswer,
) -> Result<(), AllocError>
    requires { length service.now.ids ≤ MAX_IDS }
    ensures ok { OnOk result (out.new.items
        ≡ out.old.items ++ padded (grouped MULTIPLE_SERVICES_CREDIT_CONTROL (service_parts request terms.now service.now))) }
    ensures grows { OnOk result (Grows (vec_len out.old) (vec_len out.new) (150 + 15 * length service.now.ids)) }
{
    let at = begin_group(out)?;
    put_parts(out, request, terms, service)?;
    end_group(
        out,
        at,
        codes::MULTIPLE_SERVICES_CREDIT_CONTROL,
        flags::MANDATORY,
    );
    Ok(())
}

/// Appends the AVPs in a service's group.
fn put_parts(
    out: &mut Vec<u8>,
    request: RequestType,
    terms: &Terms,
    service: &ServiceAnswer,
) -> Result<(), AllocError>
    ensures ok { OnOk result (out.new.items ≡ out.old.items ++ flat_map padded (service_parts request terms.now service.now)) }
    ensures grows { OnOk result (Grows (vec_len out.old) (vec_len out.new) (125 + 15 * length service.now.ids)) }
{
    put_grant(out, service.grant)?;
    put_identifiers(out, service.ids.as_slice())?;
    if let Some(group) = service.group {
        put_u32(out, codes::RATING_GROUP, group)?;
    }
    put_validity(out, request, terms, service.grant)?;
    put_u32(out, codes::RESULT_CODE, service.result.number())?;
    put_final(out, service.is_final)
}

/// Appends the Final-Unit-Indication of each service at the message's level.
pub(crate) fn put_finals(out: &mut Vec<u8>, services: &ServiceAnswers) -> Result<(), AllocError>
    ensures ok { OnOk result (out.new.items
        ≡ out.old.items ++ flat_map padded (flat_map (λ service. single_final service.form service) services.now)) }
    ensures grows { OnOk result (Grows (vec_len out.old) (vec_len out.new) 960) }
{
    for service in services.as_slice() {
        put_single_final(out, service)?;
    }
    Ok(())
}

/// Appends the Final-Unit-Indication of a service at the message's level, if its grant is the last.
fn put_single_final(out: &mut Vec<u8>, service: &ServiceAnswer) -> Result<(), AllocError>
    ensures ok { OnOk result (out.new.items ≡ out.old.items ++ flat_map padded (single_final service.now.form service.now)) }
    ensures grows { OnOk result (Grows (vec_len out.old) (vec_len out.new) 30) }
{
    match service.form {
        Form::Single => put_final(out, service.is_final),
        Form::Multi => Ok(()),
    }
}

/// Appends the Validity-Time of each service at the message's level.
pub(crate) fn put_validities(
    out: &mut Vec<u8>,
    request: RequestType,
    terms: &Terms,
    services: &ServiceAnswers,
) -> Result<(), AllocError>
    ensures ok { OnOk result (out.new.items
        ≡ out.old.items ++ flat_map padded (flat_map (λ service. single_validity request terms.now service.form service) services.now)) }
    ensures grows { OnOk result (Grows (vec_len out.old) (vec_len out.new) 480) }
{
    for service in services.as_slice() {
        put_single_validity(out, request, terms, service)?;
    }
    Ok(())
}

/// Appends the Validity-Time of a service at the message's level, if it has a grant of a session.
fn put_single_validity(
    out: &mut Vec<u8>,
    request: RequestType,
    terms: &Terms,
    service: &ServiceAnswer,
) -> Result<(), AllocError>
    ensures ok { OnOk result (out.new.items
        ≡ out.old.items ++ flat_map padded (single_validity request terms.now service.now.form service.now)) }
    ensures grows { OnOk result (Grows (vec_len out.old) (vec_len out.new) 15) }
{
    match service.form {
        Form::Single => put_validity(out, request, terms, service.grant),
        Form::Multi => Ok(()),
    }
}

/// Appends the Service-Identifiers in their order.
fn put_identifiers(out: &mut Vec<u8>, ids: &[u32]) -> Result<(), AllocError>
    ensures ok { OnOk result (out.new.items ≡ out.old.items ++ flat_map padded (map (sent32 SERVICE_IDENTIFIER) ids.now)) }
    ensures grows { OnOk result (Grows (vec_len out.old) (vec_len out.new) (15 * length ids.now)) }
{
    for id in ids {
        put_u32(out, codes::SERVICE_IDENTIFIER, *id)?;
    }
    Ok(())
}

/// Appends a Granted-Service-Unit, if there is a grant (RFC 8506, section 8.17).
fn put_grant(out: &mut Vec<u8>, grant: Option<Grant>) -> Result<(), AllocError>
    ensures ok { OnOk result (out.new.items ≡ out.old.items ++ flat_map padded (option_to_list (option_map granted grant))) }
    ensures grows { OnOk result (Grows (vec_len out.old) (vec_len out.new) 35) }
{
    let Some(grant) = grant else {
        return Ok(());
    };
    let at = begin_group(out)?;
    put_amount(out, grant)?;
    end_group(out, at, codes::GRANTED_SERVICE_UNIT, flags::MANDATORY);
    Ok(())
}

/// Appends a grant's amount, in the AVP of its unit.
fn put_amount(out: &mut Vec<u8>, grant: Grant) -> Result<(), AllocError>
    ensures ok { OnOk result (out.new.items ≡ out.old.items ++ padded (amount_avp grant.unit grant.units)) }
    ensures grows { OnOk result (Grows (vec_len out.old) (vec_len out.new) 19) }
{
    match grant.unit {
        UnitKind::Octets => put_u64(out, codes::CC_TOTAL_OCTETS, grant.units),
        UnitKind::Time => put_u32(out, codes::CC_TIME, grant.units as u32),
        UnitKind::Units => put_u64(out, codes::CC_SERVICE_SPECIFIC_UNITS, grant.units),
    }
}
