//! What words ask for.
ghost use Rattle.std.specs.Prelude.{◌≡◌};
ghost use Rattle.command_words.specs.Readings.{file_of};

use fcp_model::{Limits, NoMemory, Text};
use thiserror::Error;

/// What the words of a call ask for.
#[derive(Debug, Drop)]
pub enum Order {
    /// The run of a goal, by its text, over the module of a file, by its name, with a control text where one is given.
    Run {
        file: Text,
        goal: Text,
        limits: Limits,
        control: Option<Text>,
    },
    /// The canonical text of the module of a file, by its name.
    Show {
        file: Text,
    },
}

impl Order {
    /// The name of the file.
    pub fn file(&self) -> &str
        ensures { result.now ≡ file_of self.now }
    {
        match self {
            Order::Run { file, .. } => file.as_str(),
            Order::Show { file } => file.as_str(),
        }
    }
}

/// Why words gave no order.
#[derive(Clone, Copy, Debug, PartialEq, Eq, Error)]
pub enum WordFault {
    /// The words ask for nothing.
    #[error("the words are neither `run FILE GOAL` with its options nor `show FILE`")]
    Usage,
    /// Memory ran out.
    #[error("out of memory")]
    NoMemory,
}

impl From<NoMemory> for WordFault {
    ghost use Rattle.command_words.specs.declared.order.WordFault.TheVariants as fault;

    ghost from_gives = { λ _ e. e ≡ fault.NoMemory };

    fn from(_error: NoMemory) -> WordFault {
        WordFault::NoMemory
    }
}
