//! Why a request is refused.

ghost use Rattle.std.specs.Prelude.{◌≡◌};
ghost use Rattle.dcc_request.specs.Refusals.{cause_number};

/// Why a request is refused: the errors of RFC 6733, sections 7.1.3 (protocol errors, 3xxx) and 7.1.5 (permanent
/// failures, 5xxx), that this server reports to a peer, named as there.
#[derive(Clone, Copy, Debug, PartialEq, Eq)]
pub enum Cause {
    /// DIAMETER_COMMAND_UNSUPPORTED: a command that the application doesn't have here.
    CommandUnsupported,
    /// DIAMETER_APPLICATION_UNSUPPORTED: an application that isn't served.
    ApplicationUnsupported,
    /// DIAMETER_INVALID_HDR_BITS: bits of the Command Flags that exclude each other.
    InvalidHeaderBits,
    /// DIAMETER_AVP_UNSUPPORTED: an AVP with M that the dictionary doesn't have.
    AvpUnsupported,
    /// DIAMETER_INVALID_AVP_VALUE: a value that an AVP can't have.
    InvalidAvpValue,
    /// DIAMETER_MISSING_AVP: an AVP that has to be there and isn't.
    MissingAvp,
    /// DIAMETER_CONTRADICTING_AVPS: AVPs that can't stand side by side.
    ContradictingAvps,
    /// DIAMETER_AVP_OCCURS_TOO_MANY_TIMES: more AVPs of a code than there may be.
    AvpOccursTooManyTimes,
    /// DIAMETER_NO_COMMON_APPLICATION: the server serves no application that the peer names.
    NoCommonApplication,
    /// DIAMETER_INVALID_AVP_LENGTH: a length that an AVP can't have.
    InvalidAvpLength,
    /// DIAMETER_NO_COMMON_SECURITY: the server has no security that the peer names.
    NoCommonSecurity,
}

impl Cause {
    /// The Result-Code of the cause.
    pub fn number(self) -> u32
        ensures { result ≡ cause_number self }
    {
        match self {
            Cause::CommandUnsupported => 3001,
            Cause::ApplicationUnsupported => 3007,
            Cause::InvalidHeaderBits => 3008,
            Cause::AvpUnsupported => 5001,
            Cause::InvalidAvpValue => 5004,
            Cause::MissingAvp => 5005,
            Cause::ContradictingAvps => 5007,
            Cause::AvpOccursTooManyTimes => 5009,
            Cause::NoCommonApplication => 5010,
            Cause::InvalidAvpLength => 5014,
            Cause::NoCommonSecurity => 5017,
        }
    }
}
