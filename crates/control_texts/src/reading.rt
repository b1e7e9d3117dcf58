//! The reading of a control text, word by word.
ghost use Rattle.std.specs.Prelude.{◌≡◌, ◌≤◌, IfOk};
ghost use Rattle.control_texts.specs.Steps as spec;

use fcp_model::{Act, Control, NoMemory, Seq};
use word_numbers::number_of;

/// The most controls of a text.
const MOST_CONTROLS: u32 = 64;

/// The most digits of a number of moves.
const MOST_DIGITS: usize = 7;

/// The most moves after which a control may be asked for.
const MOST_MOVES: u32 = 1_000_000;

/// What stands next.
#[derive(Clone, Copy)]
pub enum Expected {
    /// The word `after`.
    After,
    /// A number of moves.
    Number,
    /// An act that is due after so many moves.
    Act(u32),
    /// A `;` or the text's end.
    Semicolon,
}

/// How the controls so far leave a run.
#[derive(Clone, Copy)]
pub enum Standing {
    Running,
    Suspended,
    Aborted,
}

/// Where a reading stands between two words.
#[derive(Clone, Copy)]
pub struct Reading {
    pub expected: Expected,
    /// How many controls were read.
    pub count: u32,
    /// The moves after which the last of them is due, or 0.
    pub moves: u32,
    pub standing: Standing,
}

/// A reading with one word more, and the control that the word ends.
#[derive(Clone, Copy)]
pub struct Step {
    pub reading: Reading,
    pub control: Option<Control>,
}

impl Reading {
    /// The reading before the first word.
    pub fn begin() -> Reading
        ensures { result ≡ spec.begin }
    {
        Reading {
            expected: Expected::After,
            count: 0,
            moves: 0,
            standing: Standing::Running,
        }
    }

    /// Whether the text may end here.
    pub fn is_whole(&self) -> bool
        ensures { result ≡ spec.is_whole self.now }
    {
        matches!(self.expected, Expected::Semicolon)
    }

    /// The same reading with something else next.
    fn expecting(self, expected: Expected) -> Step
        ensures { result ≡ spec.expecting self expected }
    {
        Step {
            reading: Reading { expected, ..self },
            control: None,
        }
    }

    /// The reading behind a number of moves.
    fn after_number(self, word: &[u8]) -> Option<Step>
        ensures { result ≡ spec.after_number self word.now }
    {
        match number_of(word, MOST_DIGITS, MOST_MOVES) {
            Some(moves) if self.moves <= moves => Some(self.expecting(Expected::Act(moves))),
            _ => None,
        }
    }

    /// The reading behind an act that is due after so many moves.
    fn after_act(self, moves: u32, word: &[u8]) -> Option<Step>
        requires { self.count ≤ 64 }
        ensures { result ≡ spec.after_act self moves word.now }
    {
        let act = act_of(word)?;
        let standing = standing_after(act, self.standing)?;
        Some(Step {
            reading: Reading {
                expected: Expected::Semicolon,
                count: self.count + 1,
                moves,
                standing,
            },
            control: Some(Control { after: moves, act }),
        })
    }

    /// The reading behind a `;`.
    fn after_semicolon(self, word: &[u8]) -> Option<Step>
        ensures { result ≡ spec.after_semicolon self word.now }
    {
        if word == b";".as_slice() && self.count < MOST_CONTROLS && self.standing.is_live() {
            Some(self.expecting(Expected::After))
        } else {
            None
        }
    }

    /// The reading with one word more, or `None` where the word cannot stand there.
    fn step(self, word: &[u8]) -> Option<Step>
        requires { self.count ≤ 64 }
        ensures { result ≡ spec.step self word.now }
    {
        match self.expected {
            Expected::After if word == b"after".as_slice() => {
                Some(self.expecting(Expected::Number))
            }
            Expected::After => None,
            Expected::Number => self.after_number(word),
            Expected::Act(moves) => self.after_act(moves, word),
            Expected::Semicolon => self.after_semicolon(word),
        }
    }
}

impl Standing {
    /// Whether something may still be asked for.
    fn is_live(&self) -> bool
        ensures { result ≡ spec.is_live self.now }
    {
        match self {
            Standing::Running | Standing::Suspended => true,
            Standing::Aborted => false,
        }
    }
}

/// The act that a word names.
fn act_of(word: &[u8]) -> Option<Act>
    ensures { result ≡ spec.act_of word.now }
{
    if word == b"snapshot".as_slice() {
        Some(Act::Snapshot)
    } else if word == b"suspend".as_slice() {
        Some(Act::Suspend)
    } else if word == b"resume".as_slice() {
        Some(Act::Resume)
    } else if word == b"abort".as_slice() {
        Some(Act::Abort)
    } else {
        None
    }
}

/// How a run stands behind an act, or `None` where the act may not be asked for.
fn standing_after(act: Act, standing: Standing) -> Option<Standing>
    ensures { result ≡ spec.standing_after act standing }
{
    match (act, standing) {
        (_, Standing::Aborted) => None,
        (Act::Snapshot, standing) => Some(standing),
        (Act::Abort, _) => Some(Standing::Aborted),
        (Act::Suspend, Standing::Running) => Some(Standing::Suspended),
        (Act::Resume, Standing::Suspended) => Some(Standing::Running),
        (Act::Suspend | Act::Resume, _) => None,
    }
}

/// Takes one word more. The control that it ends goes behind the others. `None` where the word cannot stand there; `Err` is
/// want of memory.
pub fn take(
    controls: &mut Seq<Control>,
    reading: Reading,
    word: &[u8],
) -> Result<Option<Reading>, NoMemory>
    requires { reading.count ≤ 64 }
    ensures { IfOk result (spec.Takes reading word.now controls.old controls.new) }
{
    let Some(step) = reading.step(word) else {
        return Ok(None);
    };
    if let Some(control) = step.control {
        if controls.push(control).is_err() {
            return Err(NoMemory);
        }
    }
    Ok(Some(step.reading))
}
