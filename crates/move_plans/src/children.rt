//! The processes that a commit makes.
ghost use Rattle.std.specs.Prelude.{◌≡◌, ◌+◌, ◌<◌, ◌≤◌, ◌++◌, [], ◌∷◌, length, map, OnOk};
ghost use Rattle.word_states.specs.Layouts.{born_at};
ghost use Rattle.word_states.specs.Pieces.{is_process, process_words};
ghost use Rattle.page_layout.specs.Laying.{moved_to, total, cuts};

use fcp_model::NoMemory;
use heap_words::OWN;
use page_layout::goes_to;

/// Whether a piece is a process's.
fn is_child(piece: &[u64]) -> bool
    ensures { result ≡ is_process piece.now }
{
    matches!(piece, [9, ..])
}

/// Puts the new address of a piece that begins at word `first` of all pieces at the end of a list, if it is a process's.
fn put_child(
    children: &mut Vec<u32>,
    table: &[u32],
    first: u32,
    piece: &[u64],
) -> Result<(), NoMemory>
    requires { first < 268435456 }
    ensures { OnOk result (children.new.items ≡ children.old.items
        ++ map (moved_to table.now) (process_words (4000000000 + first) (piece.now ∷ []))) }
{
    if !is_child(piece) {
        return Ok(());
    }
    match children.push(goes_to(table, OWN + first)) {
        Ok(()) => Ok(()),
        Err(_) => Err(NoMemory),
    }
}

/// Fills a list with the new addresses of the processes among pieces of these sizes, in order.
pub(crate) fn put_children(
    children: &mut Vec<u32>,
    table: &[u32],
    own: &[u64],
    sizes: &[u32],
) -> Result<(), NoMemory>
    requires whole { length own.now ≡ total sizes.now }
    requires few { length own.now < 268435456 }
    ensures { OnOk result (children.new.items ≡ born_at (moved_to table.now) (cuts sizes.now own.now)) }
{
    children.clear();
    let mut rest = own;
    let mut first = 0;
    for &size in sizes {
        let piece = &rest[..size as usize];
        put_child(children, table, first, piece)?;
        first += size;
        rest = &rest[size as usize..];
    }
    Ok(())
}
