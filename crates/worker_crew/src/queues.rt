//! Processes at the back of a queue.
ghost use Rattle.std.specs.Prelude.{◌≡◌, ◌++◌, OnOk};

use fcp_model::NoMemory;
use std::collections::VecDeque;

/// Puts processes, by their addresses, at the back of a queue, in order. The only error is want of memory.
pub(crate) fn push_all(queue: &mut VecDeque<u32>, processes: &[u32]) -> Result<(), NoMemory>
    ensures { OnOk result (queue.new.items ≡ queue.old.items ++ processes.now) }
{
    for process in processes {
        if queue.push_back(*process).is_err() {
            return Err(NoMemory);
        }
    }
    Ok(())
}
