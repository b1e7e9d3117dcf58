//! Why a control text gave no controls.
ghost use Rattle.std.specs.Prelude.{◌≡◌};

use fcp_model::NoMemory;
use thiserror::Error;

/// Why a control text gave no controls.
#[derive(Clone, Copy, Debug, PartialEq, Eq, Error)]
pub enum ControlFault {
    /// The word or `;` at this place cannot stand there, or the text ends there too early.
    #[error("the control text cannot be read at byte {at}")]
    Unread {
        /// In bytes from 0.
        at: u32,
    },
    /// Memory ran out.
    #[error("out of memory")]
    NoMemory,
}

impl From<NoMemory> for ControlFault {
    ghost use Rattle.control_texts.specs.declared.fault.ControlFault.TheVariants as fault;

    ghost from_gives = { λ _ e. e ≡ fault.NoMemory };

    fn from(_error: NoMemory) -> ControlFault {
        ControlFault::NoMemory
    }
}
