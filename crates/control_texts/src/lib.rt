//! Control texts: what is asked of a run beforehand, as `after N ACT` with `;` between two.
#![tactic(auto)]

ghost use Rattle.std.specs.Prelude.{◌<◌, ◌≤◌, length, IfOk};
ghost use Rattle.fcp_model.specs.LawfulControls.{AreLawful};
ghost use Rattle.control_texts.specs.ControlTexts.{ReadsControls};
ghost use Rattle.control_texts.specs.Laws.{ATextHasOneReading, ATextHasOneFault, NoTextIsReadWithAFault};

mod fault;
mod pieces;
mod reading;

pub use fault::ControlFault;
use fcp_model::{Control, Seq};
use pieces::next_piece;
use reading::{Reading, take};
use std::alloc::Global;

/// The controls of a text, in its order. The text is shorter than 2^32 bytes. `Err` is the place of the first fault in bytes
/// from 0, or that memory ran out.
pub fn read_controls(alloc: Global, text: &str) -> Result<Seq<Control>, ControlFault>
    requires { length text.now < 4294967296 }
    ensures reads { ReadsControls text.now result }
    ensures lawful { IfOk result AreLawful }
    ensures few { IfOk result (λ controls. length controls ≤ 64) }
{
    let bytes = text.as_bytes();
    let mut controls = Seq::empty(alloc);
    let mut reading = Reading::begin();
    let mut rest = bytes;
    while let Some((start, len)) = next_piece(rest) {
        let at = bytes.len() - rest.len() + start;
        let Some(next) = take(&mut controls, reading, &rest[start..start + len])? else {
            return Err(ControlFault::Unread { at: at as u32 });
        };
        reading = next;
        rest = &rest[start + len..];
    }
    if reading.is_whole() {
        Ok(controls)
    } else {
        Err(ControlFault::Unread {
            at: bytes.len() as u32,
        })
    }
}

/// A text is read as one list of controls, or has one place of a fault.
pub fn texts_have_one_reading()
    ensures reading { ATextHasOneReading }
    ensures fault { ATextHasOneFault }
    ensures apart { NoTextIsReadWithAFault }
{}
