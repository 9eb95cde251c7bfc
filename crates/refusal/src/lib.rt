// Why a text or a request is refused: one enum for every layer.
#![tactic(auto)]

ghost use Rattle.std.specs.Prelude.{◌≡◌, ◌++◌, Some, codes, decimal};
ghost use Rattle.refusal.specs.Report.{report};

use std::error::Error;
use std::fmt;

// Each case is one refusal that a caller can be told of, in the order in which a request is checked.
#[derive(Clone, Copy, PartialEq, Eq, Debug)]
pub enum Refusal {
    // Bytes that are not in the form asked for.
    Malformed,
    UnknownAction,
    OtherControlNumber,
    // The request is not signed in the way that its action asks for.
    WrongKind,
    NoSession,
    BadTag,
    // The sequence number is not above the last of the session.
    StaleNumber,
    // The lifetime base of the request is not that of the guard.
    OtherBase,
    // The lifetime base has reached its largest value.
    BaseExhausted,
    NotAuthorised,
    OtherDevice,
    BadIssuerTag,
    // An owner cannot revoke itself.
    RevokesItself,
    NotListed,
    AlreadyListed,
    TableFull,
    // The service did not take the command.
    NotTaken,
    // The caller's buffer cannot hold the answer.
    ShortBuffer,
}

impl Refusal {
    // The stage of checking at which the request stops, from 1 to 9.
    pub fn stage(self) -> u8
        ensures stage_as_defined { result ≡ (report self).stage }
    {
        match self {
            Refusal::Malformed | Refusal::UnknownAction => 1,
            Refusal::OtherControlNumber => 2,
            Refusal::WrongKind => 3,
            Refusal::NoSession => 4,
            Refusal::BadTag => 5,
            Refusal::StaleNumber | Refusal::OtherBase | Refusal::BaseExhausted => 6,
            Refusal::NotAuthorised => 7,
            Refusal::OtherDevice | Refusal::BadIssuerTag => 8,
            Refusal::RevokesItself
            | Refusal::NotListed
            | Refusal::AlreadyListed
            | Refusal::TableFull
            | Refusal::NotTaken
            | Refusal::ShortBuffer => 9,
        }
    }

    // The UPnP error code that the caller is told.
    pub fn code(self) -> u16
        ensures code_as_defined { result ≡ (report self).code }
    {
        match self {
            Refusal::Malformed => 402,
            Refusal::UnknownAction => 401,
            Refusal::OtherControlNumber => 715,
            Refusal::WrongKind => 712,
            Refusal::NoSession => 781,
            Refusal::BadTag | Refusal::BadIssuerTag => 711,
            Refusal::StaleNumber | Refusal::OtherBase => 714,
            Refusal::BaseExhausted | Refusal::NotTaken | Refusal::ShortBuffer => 501,
            Refusal::NotAuthorised => 701,
            Refusal::OtherDevice => 803,
            Refusal::RevokesItself => 763,
            Refusal::NotListed => 764,
            Refusal::AlreadyListed => 802,
            Refusal::TableFull => 801,
        }
    }
}

// The stage and the code.
impl fmt::Display for Refusal {
    ghost output = { λ why. Some (decimal (report why).stage ++ (codes " " ++ decimal (report why).code)) };

    fn fmt<W: fmt::Write>(&self, f: &mut fmt::Formatter<W>) -> fmt::Result {
        let (stage, code) = (self.stage(), self.code());
        write!(f, "{stage} {code}")
    }
}

impl Error for Refusal {}
