ghost use Rattle.std.specs.Prelude.{◌≡◌};
ghost use Rattle.fcp_model.specs.Codes.{code_number};

use crate::NoMemory;
use thiserror::Error;

/// The kinds of fault of a module's or a goal's text, in the order of their numbers from 1.
#[derive(Clone, Copy, Debug, PartialEq, Eq)]
pub enum Code {
    NotUtf8,
    BadCharacter,
    OpenQuote,
    NumberRange,
    Unexpected,
    TooDeep,
    TooLarge,
    UnknownAttribute,
    RepeatedModule,
    Reserved,
    UnknownTest,
    UnknownProcedure,
    ExportUnknown,
    BadExpression,
    NotExported,
}

impl Code {
    /// The number that is printed, from 1.
    pub fn number(&self) -> u32
        ensures { result ≡ code_number self.now }
    {
        match self {
            Code::NotUtf8 => 1,
            Code::BadCharacter => 2,
            Code::OpenQuote => 3,
            Code::NumberRange => 4,
            Code::Unexpected => 5,
            Code::TooDeep => 6,
            Code::TooLarge => 7,
            Code::UnknownAttribute => 8,
            Code::RepeatedModule => 9,
            Code::Reserved => 10,
            Code::UnknownTest => 11,
            Code::UnknownProcedure => 12,
            Code::ExportUnknown => 13,
            Code::BadExpression => 14,
            Code::NotExported => 15,
        }
    }
}

/// A fault of a text, with its place in bytes from 0.
#[derive(Clone, Copy, Debug, PartialEq, Eq, Error)]
#[error("fault at byte {at}")]
pub struct Fault {
    pub code: Code,
    pub at: u32,
}

/// Why a text is refused.
#[derive(Clone, Copy, Debug, PartialEq, Eq, Error)]
pub enum Refused {
    /// The text has a fault.
    #[error(transparent)]
    Fault(#[from] Fault),
    /// Memory ran out.
    #[error(transparent)]
    NoMemory(#[from] NoMemory),
}
