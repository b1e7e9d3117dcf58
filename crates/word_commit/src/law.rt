// The rule of the store, and what steps tell.
ghost use Rattle.std.specs.Prelude.{◌≡◌, ◌+◌, ◌<◌, ◌≤◌, ◌^◌, ℕ, length};
ghost use Rattle.word_commit.specs.Meanings.{Among};
ghost use Rattle.word_commit.specs.declared.view.View.{View};
ghost use Rattle.word_commit.specs.declared.quota.Quota.{Quota};
ghost use Rattle.word_commit.specs.Views.{first_view, shared, part, joined, spent};
ghost use Rattle.word_commit.specs.Kept.{Kept};

use crate::fits::Fits;
use crate::view::{Given, Law, Nothing, View};
use atomic_table::{Join, Play, Split, TableRule};
use std::marker::{Brand, PhantomData};

impl<F: Fits> TableRule<Nothing, View<F::Entry>, Given> for Law<F> {
    ghost holds = { λ given. Kept F.means given };

    ghost first = { λ given. first_view given };
}

// Each call picks what its step tells.
impl<E> Play<Nothing, View<E>> for Brand {
    ghost then = { λ step me found after. Unit {0} };
}

/// Names how a stamp changes its seat's view, by the clock that was found.
pub(crate) trait Turning<E> {
    ghost next: { View E → ℕ → View E };
}

impl<E> Turning<E> for Brand {
    ghost next = { λ v found. v };
}

/// What a stamp tells: its number fits 32 bits, is above all that the seat saw, and its writes are in the store.
pub(crate) struct Turned<N> {
    of: PhantomData<N>,
}

impl<E, N: Turning<E>> Play<Nothing, View<E>> for Turned<N> {
    ghost then = { λ step me found after. (after ≡ (N.next me.0 found, me.1)) × (found + 1 < 2 ^ 32) × (me.0.front ≤ found)
        × ((x : ℕ × ℕ) → Among after.0.grip.due x → x.0 < step.word) × (length after.0.grip.due ≤ step.word) };
}

/// Names the quota of a seat that is shared.
pub(crate) trait Portion {
    ghost quota: { Quota };
}

impl Portion for Brand {
    ghost quota = { record { commits = 0; moves = 0; cells = 0 } };
}

/// How a view is cut in two.
pub(crate) struct Cut<N> {
    of: PhantomData<N>,
}

impl<E, N: Portion> Split<View<E>> for Cut<N> {
    ghost left = { λ v. shared v N.quota };

    ghost right = { λ v. part v N.quota };
}

/// How two views are made one.
pub(crate) struct Both;

impl<E> Join<View<E>> for Both {
    ghost both = { joined };

    ghost spent = { spent };
}
