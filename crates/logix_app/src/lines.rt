//! The lines of faults.
ghost use Rattle.std.specs.Prelude.{◌≡◌, IfOk};
ghost use Rattle.logix_app.specs.Lines.{fault_line, control_line};
ghost use Rattle.logix_app.specs.Parts.{TellsModule, TellsGoal, TellsControl};

use crate::Status;
use crate::answer::{Answer, Output};
use control_texts::ControlFault;
use fcp_model::spelling::{push_bytes, push_decimal};
use fcp_model::{Fault, NoMemory, Refused};
use std::alloc::Global;

/// The answer where a module was refused.
pub fn module_refusal(alloc: Global, refused: Refused) -> Result<Answer, NoMemory>
    ensures { IfOk result (TellsModule refused) }
{
    match refused {
        Refused::Fault(fault) => Ok(Answer {
            status: Status::Module(fault),
            output: Output::Text(fault_line(alloc, b"module", fault)?),
        }),
        Refused::NoMemory(_) => Err(NoMemory),
    }
}

/// The answer where a goal was refused.
pub fn goal_refusal(alloc: Global, refused: Refused) -> Result<Answer, NoMemory>
    ensures { IfOk result (TellsGoal refused) }
{
    match refused {
        Refused::Fault(fault) => Ok(Answer {
            status: Status::Goal(fault),
            output: Output::Text(fault_line(alloc, b"goal", fault)?),
        }),
        Refused::NoMemory(_) => Err(NoMemory),
    }
}

/// The answer where a control text was refused.
pub fn control_refusal(alloc: Global, fault: ControlFault) -> Result<Answer, NoMemory>
    ensures { IfOk result (TellsControl fault) }
{
    match fault {
        ControlFault::Unread { at } => Ok(Answer {
            status: Status::Control { at },
            output: Output::Text(control_line(alloc, at)?),
        }),
        ControlFault::NoMemory => Err(NoMemory),
    }
}

/// The line of a fault of a module or a goal.
fn fault_line(alloc: Global, what: &[u8], fault: Fault) -> Result<Vec<u8>, NoMemory>
    ensures { IfOk result (λ line. line.items ≡ fault_line what.now fault) }
{
    let mut line = Vec::new(alloc);
    push_bytes(&mut line, b"logix: ")?;
    push_bytes(&mut line, what)?;
    push_bytes(&mut line, b" fault ")?;
    push_decimal(&mut line, fault.code.number())?;
    push_bytes(&mut line, b" at ")?;
    push_decimal(&mut line, fault.at)?;
    push_bytes(&mut line, b"\n")?;
    Ok(line)
}

/// The line of the fault of a control text at a place.
fn control_line(alloc: Global, at: u32) -> Result<Vec<u8>, NoMemory>
    ensures { IfOk result (λ line. line.items ≡ control_line at) }
{
    let mut line = Vec::new(alloc);
    push_bytes(&mut line, b"logix: control fault at ")?;
    push_decimal(&mut line, at)?;
    push_bytes(&mut line, b"\n")?;
    Ok(line)
}
