//! Outcomes: all data of an answer but the identifiers, the P bit and the proxies.

ghost use Rattle.std.specs.Prelude.{◌≡◌, IfOk};
ghost use Rattle.dcc_act.specs.Answers.{answer_key};

use crate::grant::Grant;
use crate::request_key::RequestKey;
use crate::service::Form;
use crate::service_answers::ServiceAnswers;
use crate::service_ids::ServiceIds;
use crate::service_key::ServiceKey;
use std::alloc::AllocError;

/// The type of the answered request (CC-Request-Type, RFC 8506, section 8.3).
#[derive(Clone, Copy, Debug, PartialEq, Eq)]
pub enum RequestType {
    /// INITIAL_REQUEST, 1.
    Initial,
    /// UPDATE_REQUEST, 2.
    Update,
    /// TERMINATION_REQUEST, 3.
    Termination,
    /// EVENT_REQUEST, 4: a one-time event.
    Event,
}

impl RequestType {
    ghost use Rattle.dcc_act.specs.Numbers.{request_type_number};

    /// The number of the type.
    pub fn number(self) -> u32
        ensures { result ≡ request_type_number self }
    {
        match self {
            RequestType::Initial => 1,
            RequestType::Update => 2,
            RequestType::Termination => 3,
            RequestType::Event => 4,
        }
    }
}

/// The result of a command, or of one service in it.
#[derive(Clone, Copy, Debug, PartialEq, Eq)]
pub enum ResultCode {
    /// DIAMETER_SUCCESS (RFC 6733, section 7.1.2).
    Success,
    /// DIAMETER_CREDIT_LIMIT_REACHED (RFC 8506, section 9.1): the free money doesn't suffice.
    CreditLimitReached,
    /// DIAMETER_UNKNOWN_SESSION_ID (RFC 6733, section 7.1.5): the session isn't open.
    UnknownSession,
    /// DIAMETER_RESOURCES_EXCEEDED (RFC 6733, section 7.1.5): too many sessions are open.
    ResourcesExceeded,
    /// DIAMETER_UNABLE_TO_COMPLY (RFC 6733, section 7.1.5): the funds would pass a limit, or a session would open twice.
    UnableToComply,
    /// DIAMETER_RATING_FAILED (RFC 8506, section 9.2): there is no tariff.
    RatingFailed,
}

impl ResultCode {
    ghost use Rattle.dcc_act.specs.Numbers.{result_number};

    /// The number of the result, as in a Result-Code.
    pub fn number(self) -> u32
        ensures { result ≡ result_number self }
    {
        match self {
            ResultCode::Success => 2001,
            ResultCode::CreditLimitReached => 4012,
            ResultCode::UnknownSession => 5002,
            ResultCode::ResourcesExceeded => 5006,
            ResultCode::UnableToComply => 5012,
            ResultCode::RatingFailed => 5031,
        }
    }
}

/// Whether the free money covers the price of the units (Check-Balance-Result, RFC 8506, section 8.6).
#[derive(Clone, Copy, Debug, PartialEq, Eq)]
pub enum Balance {
    /// ENOUGH_CREDIT: it does.
    EnoughCredit,
    /// NO_CREDIT: it doesn't.
    NoCredit,
}

impl Balance {
    ghost use Rattle.dcc_act.specs.Numbers.{balance_number};

    /// The number, as in a Check-Balance-Result.
    pub fn number(self) -> u32
        ensures { result ≡ balance_number self }
    {
        match self {
            Balance::EnoughCredit => 0,
            Balance::NoCredit => 1,
        }
    }
}

/// The outcome of one service of a request.
#[derive(Debug, PartialEq, Eq, Drop)]
pub struct ServiceAnswer {
    /// The Rating-Group, as sent.
    pub group: Option<u32>,
    /// The Service-Identifiers, as sent.
    pub ids: ServiceIds,
    pub form: Form,
    pub result: ResultCode,
    pub grant: Option<Grant>,
    /// Whether the granted units are the last that the funds cover (Final-Unit-Indication, RFC 8506, section 8.34).
    pub is_final: bool,
}

impl ServiceAnswer {
    /// The key of its service among those of its session.
    pub fn key(&self) -> ServiceKey
        ensures { result ≡ answer_key self.now }
    {
        ServiceKey {
            group: self.group,
            id: self.ids.as_slice().first().copied(),
        }
    }

    /// An equal answer. The only error is want of memory.
    pub fn copy(&self) -> Result<ServiceAnswer, AllocError>
        ensures { IfOk result (λ copy. copy ≡ self.now) }
    {
        Ok(ServiceAnswer {
            group: self.group,
            ids: self.ids.copy()?,
            form: self.form,
            result: self.result,
            grant: self.grant,
            is_final: self.is_final,
        })
    }
}

/// The outcome of a request.
#[derive(Debug, Drop)]
pub struct Answer {
    pub request: RequestType,
    /// The session and the number of the request that came first with this key.
    pub key: RequestKey,
    /// The result of the command.
    pub result: ResultCode,
    /// The services, in the order of the request.
    pub services: ServiceAnswers,
    /// The price of the units, in minor units, if the request asked for it (Cost-Information, RFC 8506, section 8.7).
    pub cost: Option<u64>,
    /// Whether the free money covers the price of the units, if the request asked for that.
    pub balance: Option<Balance>,
}

impl Answer {
    /// An equal answer. The only error is want of memory.
    pub fn copy(&self) -> Result<Answer, AllocError>
        ensures { IfOk result (λ copy. copy ≡ self.now) }
    {
        Ok(Answer {
            request: self.request,
            key: self.key.copy()?,
            result: self.result,
            services: self.services.copy()?,
            cost: self.cost,
            balance: self.balance,
        })
    }
}

/// The outcome of an act.
#[derive(Debug, Drop)]
pub enum Outcome {
    /// A request of a subscriber who has no account: DIAMETER_USER_UNKNOWN, 5030 (RFC 8506, section 9.2).
    Unknown {
        request: RequestType,
        key: RequestKey,
    },
    /// A request is answered.
    Answered(Answer),
    /// A top-up is added to the funds.
    Added,
    /// A top-up would lift the funds above 10^18 minor units, and isn't added.
    Ceiling,
    /// An expiry ends so many sessions.
    Expired {
        sessions: u64,
    },
}

impl Outcome {
    /// An equal outcome. The only error is want of memory.
    pub fn copy(&self) -> Result<Outcome, AllocError>
        ensures { IfOk result (λ copy. copy ≡ self.now) }
    {
        match self {
            Outcome::Unknown { request, key } => Ok(Outcome::Unknown {
                request: *request,
                key: key.copy()?,
            }),
            Outcome::Answered(answer) => Ok(Outcome::Answered(answer.copy()?)),
            Outcome::Added => Ok(Outcome::Added),
            Outcome::Ceiling => Ok(Outcome::Ceiling),
            Outcome::Expired { sessions } => Ok(Outcome::Expired {
                sessions: *sessions,
            }),
        }
    }
}
