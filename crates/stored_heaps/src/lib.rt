//! The laws that a plain heap is a store as a trial asks for one, and of a goal that was laid into it: its first process has a status, and
//! its places are unbound.
#![tactic(auto)]

ghost use Rattle.stored_heaps.specs.Laws.{AHeapIsAStore, AFirstProcessHasItsStatus, APlaceIsUnbound};

/// A plain heap is a store, before the first load of a trial.
pub fn heaps_are_stores()
    ensures { AHeapIsAStore }
{}

/// Where a goal was laid into words, its first process has a status in the heap that they are.
pub fn first_processes_have_a_status()
    ensures { AFirstProcessHasItsStatus }
{}

/// Where a goal was laid into words, the place of each of its variables is unbound.
pub fn places_are_unbound()
    ensures { APlaceIsUnbound }
{}
