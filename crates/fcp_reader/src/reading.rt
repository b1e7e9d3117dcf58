//! What the readers of terminals share: why they stop, and what stands at a terminal that goes on some text.
ghost use Rattle.std.specs.Prelude.{◌≡◌, ◌<◌, ◌^◌};
ghost use Rattle.fcp_reader.specs.Faults.{deeper, fault_of, is_opening};

use fcp_grammar::Terminal;
use fcp_model::Code;

/// Why nothing was read: want of memory, or a fault at a terminal, counted from 0, or at the number of terminals: at the end.
#[derive(Clone, Copy, Debug, PartialEq, Eq)]
pub enum Stopped {
    NoMemory,
    Fault(Code, usize),
}

/// The most brackets that may be open around one.
pub const MOST_OPEN: usize = 256;

fn is_opening(terminal: Terminal) -> bool
    ensures { result ≡ is_opening terminal }
{
    match terminal {
        Terminal::RoundOpen(_) | Terminal::SquareOpen(_) | Terminal::CurlyOpen(_) => true,
        _ => false,
    }
}

/// The number of open brackets behind the terminal.
pub fn deeper(depth: usize, terminal: Terminal) -> usize
    requires { depth < 2 ^ 32 }
    ensures { result ≡ deeper depth terminal }
{
    match terminal {
        Terminal::RoundOpen(_) | Terminal::SquareOpen(_) | Terminal::CurlyOpen(_) => depth + 1,
        Terminal::RoundClose | Terminal::SquareClose | Terminal::CurlyClose => depth.saturating_sub(
            1,
        ),
        Terminal::Dot(_) => 0,
        _ => depth,
    }
}

/// The fault at a terminal that goes on some text; the flag says that the terminal is one too many.
pub fn fault_of(depth: usize, terminal: Terminal, large: bool) -> Option<Code>
    ensures { result ≡ fault_of depth terminal large }
{
    if is_opening(terminal) && depth >= MOST_OPEN {
        Some(Code::TooDeep)
    } else if large {
        Some(Code::TooLarge)
    } else {
        None
    }
}
