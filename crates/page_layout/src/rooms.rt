//! Pieces go into pages by first fit.
ghost use Rattle.std.specs.Prelude.{◌≡◌, ◌⊎◌, ◌↔◌, ℕ, ◌+◌, ◌*◌, ◌<◌, ◌≤◌, true, false, IsTrue};
ghost use Rattle.std.specs.Prelude.{IfOk, IfSome, IfNone, [], ◌∷◌, ◌++◌, length, slice_get, slice_set, Some, OnOk};
ghost use Rattle.heap_words.specs.Cells.{decoded, encoded};
ghost use Rattle.heap_words.specs.Trails.{word_at, Holds, KeepsLoads};
ghost use Rattle.heap_words.specs.declared.cell.Cell.TheVariants.{Top};
ghost use Rattle.page_layout.specs.declared.rooms.Room.{Room};
ghost use Rattle.page_layout.specs.Laying.{run, IsRoom, IsLaid};
ghost use Rattle.page_layout.specs.FirstFit.{GoFirst};
ghost use Rattle.page_layout.specs.Looking.{IsTopOf, Rise, AreOpened, AllLack, FirstWith, Lacks, Looked, StopsFull};

use fcp_model::NoMemory;
use heap_words::{Cell, Trail, Words, decode};

/// How many words a page has.
pub(crate) const PAGE: u32 = 1024;

/// The words of a page that were free: those from `old` on, of which those below `top` are taken. A page that was looked at and not used
/// has none taken.
#[derive(Clone, Copy, Debug, PartialEq, Eq)]
pub struct Room {
    pub page: u32,
    pub old: u32,
    pub top: u32,
}

impl Room {
    /// Whether words of it are taken, so that its top rises.
    pub fn grew(&self) -> bool
        ensures { IsTrue result ↔ (self.now.old < self.now.top) }
    {
        self.old < self.top
    }
}

/// Whether a room has so many free words.
fn has(room: Room, need: u32) -> bool
    requires { IsRoom room }
    ensures { IsTrue result ↔ (room.top + need ≤ 1024 * room.page + 1024) }
{
    PAGE - (room.top - PAGE * room.page) >= need
}

/// The position of the first room that has so many free words.
fn first_fit(rooms: &[Room], need: u32) -> Option<usize>
    requires rooms { (k : ℕ) (r : Room) → slice_get rooms.now k ≡ Some r → IsRoom r }
    ensures some { IfSome result (FirstWith rooms.now need) }
    ensures none { IfNone result (AllLack rooms.now need) }
{
    for at in 0..rooms.len() {
        let room = rooms[at];
        if has(room, need) {
            return Some(at);
        }
    }
    None
}

/// Takes words of the room at a position, one after another, for a piece.
fn place(
    rooms: &mut Vec<Room>,
    table: &mut Vec<u32>,
    at: usize,
    room: Room,
    need: u32,
) -> Result<(), NoMemory>
    requires is { slice_get rooms.old.items at ≡ Some room }
    requires fits { room.top + need ≤ 1024 * room.page + 1024 }
    requires small { room.page < 3906250 }
    ensures table { OnOk result (table.new.items ≡ table.old.items ++ run room.top need) }
    ensures rooms { OnOk result (rooms.new.items ≡ slice_set rooms.old.items at
        (record { page = room.page; old = room.old; top = room.top + need })) }
{
    for step in 0..need {
        if table.push(room.top + step).is_err() {
            return Err(NoMemory);
        }
    }
    rooms[at] = Room {
        page: room.page,
        old: room.old,
        top: room.top + need,
    };
    Ok(())
}

/// The first word of a page, which is kept from now on.
fn first_word<W: Words>(words: &mut W, trail: &mut Trail, page: u32) -> Result<u64, NoMemory>
    requires sound { W.sound words.old }
    requires holds { Holds W.had W.leads trail.old.kept trail.old.binds words.old }
    requires small { page < 3906250 }
    requires known { W.knows words.old (1024 * page) }
    ensures between { W.later words.old words.new }
    ensures loaded { OnOk result (KeepsLoads W.sound W.had W.leads W.later W.gave trail.old.kept trail.old.binds words.old
        trail.new.kept trail.new.binds words.new) }
    ensures binds { trail.new.binds ≡ trail.old.binds }
    ensures reads { trail.new.reads.items ≡ trail.old.reads.items }
    ensures kept { IfOk result (λ x. word_at trail.new.kept (1024 * page) ≡ Some x) }
{
    let word = trail.word(words, PAGE * page)?;
    Ok(word)
}

/// The free words of a page whose first word this is; `None` where it is no top of the page.
fn room_of(page: u32, word: u64) -> Option<Room>
    requires { page < 3906250 }
    ensures room { IfSome result (λ r. IsRoom r × (r.page ≡ page) × (r.old ≡ r.top) × (decoded word ≡ Some (Top r.old))) }
    ensures none { IfNone result (IsTopOf page (decoded word) → ⊥) }
{
    let first = PAGE * page;
    match decode(word) {
        Some(Cell::Top(top)) => if top > first && top <= first + PAGE {
            Some(Room {
                page,
                old: top,
                top,
            })
        } else {
            None
        },
        _ => None,
    }
}

/// Puts a room at the end of a list, and answers its position.
fn push_room(rooms: &mut Vec<Room>, room: Room) -> Result<usize, NoMemory>
    ensures { IfOk result (λ k. (k ≡ length rooms.old.items) × (rooms.new.items ≡ rooms.old.items ++ room ∷ [])) }
{
    let at = rooms.len();
    match rooms.push(room) {
        Ok(()) => Ok(at),
        Err(_) => Err(NoMemory),
    }
}

/// Looks at a page, and answers the position of its room where that has so many free words.
fn look<W: Words>(
    words: &mut W,
    trail: &mut Trail,
    rooms: &mut Vec<Room>,
    page: u32,
    need: u32,
) -> Result<Option<usize>, NoMemory>
    requires sound { W.sound words.old }
    requires holds { Holds W.had W.leads trail.old.kept trail.old.binds words.old }
    requires small { page < 3906250 }
    requires known { W.knows words.old (1024 * page) }
    requires rooms { (k : ℕ) (r : Room) → slice_get rooms.old.items k ≡ Some r → IsRoom r }
    requires before { (k : ℕ) (r : Room) → slice_get rooms.old.items k ≡ Some r → r.page < page }
    ensures between { W.later words.old words.new }
    ensures loaded { OnOk result (KeepsLoads W.sound W.had W.leads W.later W.gave trail.old.kept trail.old.binds words.old
        trail.new.kept trail.new.binds words.new) }
    ensures binds { trail.new.binds ≡ trail.old.binds }
    ensures reads { trail.new.reads.items ≡ trail.old.reads.items }
    ensures looked { OnOk result (Looked trail.old.kept rooms.old.items page trail.new.kept rooms.new.items (page + 1)) }
    ensures fits { IfOk result (λ f. IfSome f (λ k. AllLack rooms.old.items need → FirstWith rooms.new.items need k)) }
    ensures lack { IfOk result (λ f. IfNone f (AllLack rooms.old.items need → AllLack rooms.new.items need)) }
{
    let word = first_word(words, trail, page)?;
    let Some(room) = room_of(page, word) else {
        return Ok(None);
    };
    let at = push_room(rooms, room)?;
    if has(room, need) {
        return Ok(Some(at));
    }
    Ok(None)
}

/// The first room that has so many free words, with the first page that was not looked at yet. Pages from `next` on are
/// looked at where no page before them has the room.
fn find<W: Words>(
    words: &mut W,
    trail: &mut Trail,
    rooms: &mut Vec<Room>,
    next: u32,
    pages: u32,
    need: u32,
) -> Result<(Option<usize>, u32), NoMemory>
    requires sound { W.sound words.old }
    requires holds { Holds W.had W.leads trail.old.kept trail.old.binds words.old }
    requires small { pages ≤ 3906250 }
    requires next { next ≤ pages }
    requires known { (p : ℕ) → p < pages → W.knows words.old (1024 * p) }
    requires rooms { (k : ℕ) (r : Room) → slice_get rooms.old.items k ≡ Some r → IsRoom r }
    requires before { (k : ℕ) (r : Room) → slice_get rooms.old.items k ≡ Some r → r.page < next }
    ensures between { W.later words.old words.new }
    ensures loaded { OnOk result (KeepsLoads W.sound W.had W.leads W.later W.gave trail.old.kept trail.old.binds words.old
        trail.new.kept trail.new.binds words.new) }
    ensures binds { trail.new.binds ≡ trail.old.binds }
    ensures reads { trail.new.reads.items ≡ trail.old.reads.items }
    ensures looked { IfOk result (λ f. Looked trail.old.kept rooms.old.items next trail.new.kept rooms.new.items f.1 × (f.1 ≤ pages)) }
    ensures fits { IfOk result (λ f. IfSome f.0 (FirstWith rooms.new.items need)) }
    ensures lack { IfOk result (λ f. IfNone f.0 ((f.1 ≡ pages) × AllLack rooms.new.items need)) }
{
    if let Some(at) = first_fit(rooms, need) {
        return Ok((Some(at), next));
    }
    for page in next..pages {
        if let Some(at) = look(words, trail, rooms, page, need)? {
            return Ok((Some(at), page + 1));
        }
    }
    Ok((None, pages))
}

/// Lays pieces of these sizes into pages from `from` on and before `pages`, by first fit in ascending order, and answers whether all
/// of them found room. A piece is never parted. What was in the two lists is dropped.
///
/// The tops of the pages that were looked at are among the kept words of the trail. Where memory runs out, the two lists say nothing,
/// and the trail may have kept some words more.
pub fn lay<W: Words>(
    words: &mut W,
    trail: &mut Trail,
    rooms: &mut Vec<Room>,
    table: &mut Vec<u32>,
    from: u32,
    pages: u32,
    sizes: &[u32],
) -> Result<bool, NoMemory>
    requires sound { W.sound words.old }
    requires holds { Holds W.had W.leads trail.old.kept trail.old.binds words.old }
    requires small { pages ≤ 3906250 }
    requires from { from ≤ pages }
    requires known { (p : ℕ) → p < pages → W.knows words.old (1024 * p) }
    ensures between { W.later words.old words.new }
    ensures loaded { OnOk result (KeepsLoads W.sound W.had W.leads W.later W.gave trail.old.kept trail.old.binds words.old
        trail.new.kept trail.new.binds words.new) }
    ensures binds { trail.new.binds ≡ trail.old.binds }
    ensures reads { trail.new.reads.items ≡ trail.old.reads.items }
    ensures opened { OnOk result (AreOpened trail.new.kept rooms.new.items from pages) }

    // Where it answers true, all pieces are laid, each in the first page that had room for it when its turn came.
    ensures laid { IfOk result (λ t. t ≡ true → IsLaid rooms.new.items table.new.items sizes.now) }
    ensures first { IfOk result (λ t. t ≡ true → GoFirst trail.new.kept from pages sizes.now table.new.items) }

    // Where it answers false, those before a certain one are laid so, and no page has the room for that one.
    ensures full { IfOk result (λ t. t ≡ false
        → StopsFull trail.new.kept rooms.new.items table.new.items from pages sizes.now) }
{
    rooms.clear();
    table.clear();
    let mut next = from;
    for &need in sizes {
        let (found, seen) = find(words, trail, rooms, next, pages, need)?;
        next = seen;
        let Some(at) = found else {
            return Ok(false);
        };
        let room = rooms[at];
        place(rooms, table, at, room, need)?;
    }
    Ok(true)
}

/// The page after a room's, where it is this one and has less than 96 free words; else this page.
fn past(page: u32, room: Room) -> u32
    requires { IsRoom room }
    ensures { ((result ≡ page) × (room.page ≡ page → Lacks room 96 → ⊥)) ⊎ ((result ≡ page + 1) × (room.page ≡ page) × Lacks room 96) }
{
    if room.page == page && !has(room, 96) {
        page + 1
    } else {
        page
    }
}

/// The first page from one on that is not known to be nearly full: all pages before it are rooms with less than 96 free words, and it is
/// none of those. Where a caller lays its next entry from there, first fit does not look at the others again.
pub fn first_open(rooms: &[Room], from: u32) -> u32
    requires rooms { (k : ℕ) (r : Room) → slice_get rooms.now k ≡ Some r → IsRoom r }
    requires rise { Rise rooms.now }
    ensures from { from ≤ result }
    ensures before { (p : ℕ) → from ≤ p → p < result → (k : ℕ) × (r : Room) × (slice_get rooms.now k ≡ Some r) × (r.page ≡ p)
        × Lacks r 96 }
    ensures roomy { (k : ℕ) (r : Room) → slice_get rooms.now k ≡ Some r → r.page ≡ result → Lacks r 96 → ⊥ }
{
    let mut first = from;
    for at in 0..rooms.len() {
        let room = rooms[at];
        first = past(first, room);
    }
    first
}
