//! How often an AVP stands in a list, as data: a table for the list of each command's requests, and a table for the list of
//! each kind of walked group. The rows stand in the order of checking, required AVPs first.

ghost use Rattle.std.specs.Prelude.{◌≡◌};
ghost use Rattle.dcc_request.specs.Tables.{least_times, most_times, table_of};

use dcc_avp::codes;

/// How often an AVP stands in a list.
#[derive(Clone, Copy, Debug, PartialEq, Eq)]
pub enum Times {
    /// Exactly once.
    Once,
    /// Once or not at all.
    AtMostOnce,
    /// Once or more often.
    AtLeastOnce,
    /// Up to this often, or not at all.
    AtMost(usize),
}

impl Times {
    /// The least number of AVPs.
    pub(crate) fn least(self) -> usize
        ensures { result ≡ least_times self }
    {
        match self {
            Times::Once | Times::AtLeastOnce => 1,
            Times::AtMostOnce | Times::AtMost(_) => 0,
        }
    }

    /// The greatest number of AVPs, if there is a limit.
    pub(crate) fn most(self) -> Option<usize>
        ensures { result ≡ most_times self }
    {
        match self {
            Times::Once | Times::AtMostOnce => Some(1),
            Times::AtLeastOnce => None,
            Times::AtMost(most) => Some(most),
        }
    }
}

/// How often an AVP of a code and of no vendor stands in a list. An AVP without a row may stand any number of times.
pub type Row = (u32, Times);

/// The most services (Multiple-Services-Credit-Control) of one request, a limit of this server.
pub const MAX_SERVICES: usize = 32;

/// The CC-Request-Type of an update, UPDATE_REQUEST (RFC 8506, section 8.3).
pub const UPDATE_TYPE: u32 = 2;

/// The CC-Request-Type of a termination, TERMINATION_REQUEST (RFC 8506, section 8.3).
pub const TERMINATION_TYPE: u32 = 3;

/// The CC-Request-Type of an event, EVENT_REQUEST (RFC 8506, section 8.3).
pub const EVENT_TYPE: u32 = 4;

/// A Capabilities-Exchange request (RFC 6733, section 5.3.1).
pub const CAPABILITIES: [Row; 5] = [
    (codes::ORIGIN_HOST, Times::Once),
    (codes::ORIGIN_REALM, Times::Once),
    (codes::VENDOR_ID, Times::Once),
    (codes::PRODUCT_NAME, Times::Once),
    (codes::HOST_IP_ADDRESS, Times::AtLeastOnce),
];

/// A Device-Watchdog request (RFC 6733, section 5.5.1).
pub const WATCHDOG: [Row; 2] = [
    (codes::ORIGIN_HOST, Times::Once),
    (codes::ORIGIN_REALM, Times::Once),
];

/// A Disconnect-Peer request (RFC 6733, section 5.4.1).
pub const DISCONNECT: [Row; 3] = [
    (codes::ORIGIN_HOST, Times::Once),
    (codes::ORIGIN_REALM, Times::Once),
    (codes::DISCONNECT_CAUSE, Times::Once),
];

/// A Credit-Control request (RFC 8506, section 3.1) that is neither an event nor an update or a termination: an initial request, or a
/// request of an unknown type.
pub const SESSION: [Row; 13] = [
    (codes::SESSION_ID, Times::Once),
    (codes::ORIGIN_HOST, Times::Once),
    (codes::ORIGIN_REALM, Times::Once),
    (codes::DESTINATION_REALM, Times::Once),
    (codes::AUTH_APPLICATION_ID, Times::Once),
    (codes::SERVICE_CONTEXT_ID, Times::Once),
    (codes::CC_REQUEST_TYPE, Times::Once),
    (codes::CC_REQUEST_NUMBER, Times::Once),
    (codes::SUBSCRIPTION_ID, Times::AtLeastOnce),
    (codes::SERVICE_IDENTIFIER, Times::AtMostOnce),
    (codes::REQUESTED_ACTION, Times::AtMostOnce),
    (codes::REQUESTED_SERVICE_UNIT, Times::AtMostOnce),
    (
        codes::MULTIPLE_SERVICES_CREDIT_CONTROL,
        Times::AtMost(MAX_SERVICES),
    ),
];

/// A Credit-Control request that is an update or a termination. It may lack a Subscription-Id (RFC 8506, section 3.1),
/// since its session names the subscriber.
pub const REPORT: [Row; 12] = [
    (codes::SESSION_ID, Times::Once),
    (codes::ORIGIN_HOST, Times::Once),
    (codes::ORIGIN_REALM, Times::Once),
    (codes::DESTINATION_REALM, Times::Once),
    (codes::AUTH_APPLICATION_ID, Times::Once),
    (codes::SERVICE_CONTEXT_ID, Times::Once),
    (codes::CC_REQUEST_TYPE, Times::Once),
    (codes::CC_REQUEST_NUMBER, Times::Once),
    (codes::SERVICE_IDENTIFIER, Times::AtMostOnce),
    (codes::REQUESTED_ACTION, Times::AtMostOnce),
    (codes::REQUESTED_SERVICE_UNIT, Times::AtMostOnce),
    (
        codes::MULTIPLE_SERVICES_CREDIT_CONTROL,
        Times::AtMost(MAX_SERVICES),
    ),
];

/// A Credit-Control request that is an event. It has to have a Requested-Action, whose row so stands before the optional AVPs.
pub const EVENT: [Row; 13] = [
    (codes::SESSION_ID, Times::Once),
    (codes::ORIGIN_HOST, Times::Once),
    (codes::ORIGIN_REALM, Times::Once),
    (codes::DESTINATION_REALM, Times::Once),
    (codes::AUTH_APPLICATION_ID, Times::Once),
    (codes::SERVICE_CONTEXT_ID, Times::Once),
    (codes::CC_REQUEST_TYPE, Times::Once),
    (codes::CC_REQUEST_NUMBER, Times::Once),
    (codes::SUBSCRIPTION_ID, Times::AtLeastOnce),
    (codes::REQUESTED_ACTION, Times::Once),
    (codes::SERVICE_IDENTIFIER, Times::AtMostOnce),
    (codes::REQUESTED_SERVICE_UNIT, Times::AtMostOnce),
    (
        codes::MULTIPLE_SERVICES_CREDIT_CONTROL,
        Times::AtMost(MAX_SERVICES),
    ),
];

/// A Subscription-Id (RFC 8506, section 8.46).
pub const SUBSCRIPTION: [Row; 2] = [
    (codes::SUBSCRIPTION_ID_TYPE, Times::Once),
    (codes::SUBSCRIPTION_ID_DATA, Times::Once),
];

/// A Multiple-Services-Credit-Control (RFC 8506, section 8.16).
pub const SERVICE: [Row; 2] = [
    (codes::RATING_GROUP, Times::AtMostOnce),
    (codes::REQUESTED_SERVICE_UNIT, Times::AtMostOnce),
];

/// A Requested-Service-Unit or a Used-Service-Unit (RFC 8506, sections 8.18 and 8.19).
pub const UNITS: [Row; 5] = [
    (codes::CC_TIME, Times::AtMostOnce),
    (codes::CC_TOTAL_OCTETS, Times::AtMostOnce),
    (codes::CC_INPUT_OCTETS, Times::AtMostOnce),
    (codes::CC_OUTPUT_OCTETS, Times::AtMostOnce),
    (codes::CC_SERVICE_SPECIFIC_UNITS, Times::AtMostOnce),
];

/// The table of a walked group, by its code. A Vendor-Specific-Application-Id has no row.
pub(crate) fn table_of(code: u32) -> &'static [Row]
    ensures { result.now ≡ table_of code }
{
    match code {
        codes::SUBSCRIPTION_ID => &SUBSCRIPTION,
        codes::MULTIPLE_SERVICES_CREDIT_CONTROL => &SERVICE,
        codes::REQUESTED_SERVICE_UNIT | codes::USED_SERVICE_UNIT => &UNITS,
        _ => &[],
    }
}
