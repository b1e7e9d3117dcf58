//! The piece of a process.
ghost use Rattle.std.specs.Prelude.{◌≡◌, ◌+◌, ◌≤◌, None, IfNone, IfSome, OnSome, length};
ghost use Rattle.goal_layout.specs.FirstFit.{fit};
ghost use Rattle.goal_layout.specs.Pages.{ArePages, rooms};
ghost use Rattle.goal_layout.specs.Items.{LaysProcess};

use crate::pages::take;
use heap_words::{Cell, Stand, encode};

/// Lays a process that is Ready, and answers its address: its status, its name, its procedure, its number of arguments, and these.
pub(crate) fn lay_process(
    words: &mut [u64],
    number: u32,
    procedure: u32,
    args: &[u64],
) -> Option<u32>
    requires pages { ArePages words.old }
    requires few { length args.now ≤ 64 }
    ensures none { IfNone result (fit (4 + length args.now) (rooms words.old) ≡ None) }
    ensures pages { OnSome result (ArePages words.new) }
    ensures laid { IfSome result (λ p. LaysProcess number procedure args.now p words.old words.new) }
{
    let count = args.len() as u32;
    let at = take(words, 4 + count)?;
    words[at as usize] = encode(Cell::Status(Stand::Ready));
    words[at as usize + 1] = encode(Cell::Small(number as i64));
    words[at as usize + 2] = encode(Cell::Raw(procedure));
    words[at as usize + 3] = encode(Cell::Raw(count));
    for (place, arg) in args.iter().enumerate() {
        words[at as usize + 4 + place] = *arg;
    }
    Some(at)
}
