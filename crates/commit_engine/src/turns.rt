//! A turn.
ghost use Rattle.std.specs.Prelude.{◌≡◌, ◌⊎◌, ◌-◌, ◌<◌, ◌≤◌, ℕ, true, false, if◌then◌else◌};
ghost use Rattle.word_states.specs.Words.{Among};
ghost use Rattle.trial_machine.specs.Goals.{HasStatus};
ghost use Rattle.word_moves.specs.Planned.{IsSafeMove};
ghost use Rattle.move_plans.specs.Plans.{move_of};
ghost use Rattle.commit_engine.specs.Holding.{IsFree};
ghost use Rattle.commit_engine.specs.Halls.{IsPaid};
ghost use Rattle.commit_engine.specs.Making.{IsEntry};
ghost use Rattle.commit_engine.specs.Finishing.{answer_of, AnswerSays, FinishSays, IsLeft};
ghost use Rattle.commit_engine.specs.Turns.{TurnSays, IsAlone, IsCommit, IsHang, has_made};
ghost use Rattle.commit_engine.specs.declared.answer.Turn.TheVariants as answer;
ghost use Rattle.commit_engine.specs.declared.answer.Spent.TheVariants as spent;

use crate::answer::{Spent, Turn};
use crate::hall::Hall;
use crate::making::{Making, make};
use crate::prepared::{Prepared, prepare};
use fcp_model::Entry;
use machine_code::Code;
use move_plans::{Planned, Planner};

/// The answer of a turn, by the entry and how its making ended.
fn answer_by(entry: Entry, making: Making) -> Turn
    ensures { result ≡ answer_of entry making }
{
    match (making, entry) {
        (Making::Made { number }, Entry::Commit { .. }) => Turn::Committed { number },
        (Making::Made { number }, _) => Turn::Hung { number },
        (Making::Busy { page }, _) => Turn::Busy { page },
        (Making::Changed(change), _) => Turn::Stale {
            addr: change.addr,
            kept: change.kept,
            found: change.found,
        },
    }
}

/// Makes the entry that is prepared, which the quota covers.
fn make_prepared<H: Hall>(hall: &mut H, prepared: Prepared) -> Turn
    requires sound { H.sound hall.old }
    requires idle { H.due hall.old ≡ false }
    requires free { IsFree (H.holds hall.old) }
    requires room { 0 < H.spare hall.old }
    requires paid { IsPaid (H.purse hall.old) prepared.entry }
    requires entry { IsEntry prepared.entry prepared.pages.items prepared.places.items }
    requires had { (a x : ℕ) → Among prepared.entry.reads.items (a, x) → H.had hall.old a x }
    requires same { H.alone hall.old → (w : H) (a x y : ℕ) → Among prepared.entry.reads.items (a, x) → H.found hall.old w a y → x ≡ y }
    ensures sound { H.sound hall.new }
    ensures idle { H.due hall.new ≡ false }
    ensures free { IsFree (H.holds hall.new) }
    ensures says { AnswerSays H.page_count H.due H.purse H.spare H.takes H.silent H.found H.added prepared.entry prepared.pages.items
        hall.old hall.new (H.alone hall.old) result }
{
    let Prepared {
        entry,
        pages,
        places,
    } = prepared;
    let kind = entry.entry;
    answer_by(kind, make(hall, entry, pages.as_slice(), places.as_slice()))
}

/// Makes the move of the process at an address that a planner planned over the hall, where no other worker is in the way. It is a commit
/// or a hang, whose cells are left, and has at least one commit, one move and one entry of room left. This is the end of a turn:
/// its pages are taken, and what it read is looked at again. The planner then tells what the move did.
///
/// After every answer the hall holds no page, and nothing waits to be published.
pub fn make_planned<H: Hall>(hall: &mut H, planner: &mut Planner, process: u32) -> Turn
    requires sound { H.sound hall.old }
    requires idle { H.due hall.old ≡ false }
    requires free { IsFree (H.holds hall.old) }
    requires room { 0 < H.spare hall.old }
    requires quota { (0 < (H.purse hall.old).commits) × (0 < (H.purse hall.old).moves) }
    requires safe { IsSafeMove (move_of planner.old process) }
    requires kind { IsCommit planner.old.entry ⊎ IsHang planner.old.entry }
    requires cells { planner.old.cells ≤ (H.purse hall.old).cells }
    requires had { (a x : ℕ) → Among planner.old.machine.trail.kept (a, x) → H.had hall.old a x }
    requires same { H.alone hall.old → (w : H) (a x y : ℕ) → Among planner.old.machine.trail.kept (a, x) → H.found hall.old w a y → x ≡ y }
    ensures sound { H.sound hall.new }
    ensures idle { H.due hall.new ≡ false }
    ensures free { IsFree (H.holds hall.new) }
    ensures says { FinishSays H.page_count H.due H.purse H.spare H.takes H.silent H.found H.added hall.old hall.new planner.old planner.new
        process result }
    ensures rest { IsLeft H.page_count H.purse H.spare H.alone hall.old hall.new result }
{
    match prepare(planner, process) {
        Some(prepared) => make_prepared(hall, prepared),
        None => Turn::NoMemory,
    }
}

/// What follows in a turn where the quota has moves and commits left.
fn go_on<H: Hall>(hall: &mut H, planner: &mut Planner, code: &Code, process: u32) -> Turn
    requires sound { H.sound hall.old }
    requires idle { H.due hall.old ≡ false }
    requires free { IsFree (H.holds hall.old) }
    requires room { 0 < H.spare hall.old }
    requires quota { (0 < (H.purse hall.old).commits) × (0 < (H.purse hall.old).moves) }
    requires process { HasStatus H.had hall.old process }
    ensures sound { H.sound hall.new }
    ensures idle { H.due hall.new ≡ false }
    ensures free { IsFree (H.holds hall.new) }
    ensures says { TurnSays H.found H.takes H.purse H.silent H.added code.now hall.old hall.new planner.new process result }
    ensures rest { IsLeft H.page_count H.purse H.spare H.alone hall.old hall.new result }
{
    let pages = hall.pages();
    let left = hall.quota().cells;
    let Ok(planned) = planner.plan(code, hall, process, pages, left) else {
        return Turn::NoMemory;
    };
    match planned {
        Planned::Commits => make_planned(hall, planner, process),
        Planned::Hangs => make_planned(hall, planner, process),
        Planned::Fails => Turn::Fails,
        Planned::Gone(stand) => Turn::Gone(stand),
        Planned::Large { cells } => Turn::Spent(Spent::Cells {
            needed: cells,
            left,
        }),
        // No page has the room: a hall is made with pages enough.
        Planned::Full => Turn::NoMemory,
    }
}

/// A turn of the process at an address: the move that is decided for it is made, where the quota covers it and no other worker is in the
/// way.
/// Its pages are taken in ascending order, and what it read is looked at again while they are held. The planner then tells what the
/// move did.
///
/// Without moves or commits left nothing is looked at. After every answer the hall holds no page, and nothing waits to be published.
pub fn turn<H: Hall>(hall: &mut H, planner: &mut Planner, code: &Code, process: u32) -> Turn
    requires sound { H.sound hall.old }
    requires free { (p : ℕ) → H.holds hall.old p ≡ false }
    requires idle { H.due hall.old ≡ false }
    requires process { HasStatus H.had hall.old process }
    requires room { ((H.purse hall.old).moves ≡ 0 → ⊥) → 0 < H.spare hall.old }
    ensures sound { H.sound hall.new }
    ensures free { (p : ℕ) → H.holds hall.new p ≡ false }
    ensures idle { H.due hall.new ≡ false }
    ensures says { TurnSays H.found H.takes H.purse H.silent H.added code.now hall.old hall.new planner.new process result }
    ensures alone { H.alone hall.old → IsAlone result ≡ true }
    ensures moves { (H.purse hall.old).moves ≡ 0 → result ≡ answer.Spent spent.Moves }
    ensures commits { ((H.purse hall.old).moves ≡ 0 → ⊥) → (H.purse hall.old).commits ≡ 0 → result ≡ answer.Spent spent.Commits }
    ensures purse { has_made result ≡ false → H.purse hall.new ≡ H.purse hall.old }
    ensures pages { H.page_count hall.new ≡ H.page_count hall.old }
    ensures spare { H.spare hall.new ≡ (if has_made result then H.spare hall.old - 1 else H.spare hall.old) }
{
    let quota = hall.quota();
    if quota.moves == 0 {
        return Turn::Spent(Spent::Moves);
    }
    if quota.commits == 0 {
        return Turn::Spent(Spent::Commits);
    }
    go_on(hall, planner, code, process)
}
