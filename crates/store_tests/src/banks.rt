ghost use Rattle.std.specs.Prelude.{◌≡◌, ◌*◌, ◌≤◌, length, IfOk, vec_len};
ghost use Rattle.word_commit.specs.Openings.{MayOpen};
ghost use Rattle.store_tests.specs.Purses.{purse_words};

use fcp_model::NoMemory;
use std::alloc::Global;

const PAGE: usize = 1024;

/// A page for each purse: its top says that it is full, its second word is what is in the purse.
pub fn bank(alloc: Global, coins: &[u64]) -> Result<Vec<u64>, NoMemory>
    requires { length coins.now ≤ 3906250 }
    ensures words { IfOk result (λ w. MayOpen purse_words w.items) }
    ensures len { IfOk result (λ w. vec_len w ≡ 1024 * length coins.now) }
{
    let Ok(mut words) = Vec::from_elem(alloc, 0u64, PAGE * coins.len()) else {
        return Err(NoMemory);
    };
    for page in 0..coins.len() {
        words[PAGE * page] = (PAGE * page + PAGE) as u64;
        words[PAGE * page + 1] = coins[page];
    }
    Ok(words)
}
