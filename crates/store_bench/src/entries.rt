//! Many entries, for the memory that they take.
ghost use Rattle.std.specs.Prelude.{◌≤◌};

use crate::spells::count_spell;
use crate::stores::make_store;
use anyhow::{Result, bail};

/// The most entries: for so many each store has room, however many are made.
pub(crate) const MOST_ENTRIES: u32 = 4_000_000;

/// Makes so many entries, closes the store, and prints how many the log has.
pub(crate) fn print_entries<R: Print + AllocGlobal>(rt: &R, entries: u32) -> Result<()> {
    if entries > MOST_ENTRIES {
        bail!("too many entries");
    }
    let Ok((store, mut seat)) = make_store(rt.alloc(), 1, MOST_ENTRIES) else {
        bail!("out of memory");
    };
    if count_spell(&store, &mut seat, 0, entries) != Some(entries) {
        bail!("another number of entries");
    }
    let closed = store.close(seat);
    if closed.words.len() < 2 || closed.words.word(1) != u64::from(entries) {
        bail!("another word");
    }
    println!(rt; "entries: {}", closed.log.len())?;
    Ok(())
}
