//! The pieces of terms: wholes before their parts, from the left.
ghost use Rattle.std.specs.Prelude.{◌≡◌, ℕ, Some, None, IfNone, IfSome, OnSome};
ghost use Rattle.fcp_model.specs.declared.term.Term.{Term, Cons};
ghost use Rattle.fcp_model.specs.Terms.{tuple};
ghost use Rattle.fcp_model.specs.ClosedPrograms.{Over, IsNumbered};
ghost use Rattle.fcp_model.specs.Translation.{term_of};
ghost use Rattle.heap_words.specs.Cells.{decoded};
ghost use Rattle.heap_words.specs.declared.cell.Cell.TheVariants.{Str};
ghost use Rattle.goal_layout.specs.FirstFit.{first_fit};
ghost use Rattle.goal_layout.specs.PieceSizes.{term_sizes};
ghost use Rattle.goal_layout.specs.Pages.{ArePages, rooms};
ghost use Rattle.goal_layout.specs.Laying.{IsNarrow, LaysTerm, parts_of};

use crate::numbers::lay_number;
use crate::pages::take;
use fcp_model::{Sym, Term};
use heap_words::{Cell, encode};

/// The word of a string.
fn string_word(string: Sym) -> u64
    ensures { decoded result ≡ Some (Str string) }
{
    encode(Cell::Str(string))
}

/// The word of a term, whose pieces are laid. Calls nest as deep as brackets.
#[cycle(terms)]
pub(crate) fn lay_term(words: &mut [u64], term: &Term) -> Option<u64>
    requires pages { ArePages words.old }
    requires narrow { IsNarrow (term_of term.now) }
    requires numbered { (vars : ℕ) × Over (IsNumbered vars) (term_of term.now) }
    ensures none { IfNone result (first_fit (rooms words.old) (term_sizes (term_of term.now)) ≡ None) }
    ensures pages { OnSome result (ArePages words.new) }
    ensures laid { (vars : ℕ) → Over (IsNumbered vars) (term_of term.now)
        → IfSome result (λ x. LaysTerm vars (term_of term.now) x words.old words.new) }
{
    match term {
        Term::Int(number) => lay_number(words, *number),
        Term::Str(string) => Some(string_word(*string)),
        Term::Nil => Some(encode(Cell::Nil)),
        Term::Var(variable) => Some(encode(Cell::Ref(2 * *variable as u32))),
        Term::Ro(variable) => Some(encode(Cell::RoRef(2 * *variable as u32))),
        Term::Cons(_, _) => lay_list(words, term),
        Term::Tuple(parts) => lay_tuple(words, parts.as_slice()),
    }
}

/// The word of a pair. A list's rest is walked in a loop, since a list may be long: the second word of a pair is written when the
/// pair after it is laid.
#[cycle(terms)]
fn lay_list(words: &mut [u64], list: &Term) -> Option<u64>
    requires pages { ArePages words.old }
    requires narrow { IsNarrow (term_of list.now) }
    requires numbered { (vars : ℕ) × Over (IsNumbered vars) (term_of list.now) }
    requires pair { (head tail : Term) × (list.now ≡ Cons head tail) }
    ensures none { IfNone result (first_fit (rooms words.old) (term_sizes (term_of list.now)) ≡ None) }
    ensures pages { OnSome result (ArePages words.new) }
    ensures laid { (vars : ℕ) → Over (IsNumbered vars) (term_of list.now)
        → IfSome result (λ x. LaysTerm vars (term_of list.now) x words.old words.new) }
{
    let Term::Cons(head, tail) = list else {
        unreachable!()
    };
    let first = take(words, 2)?;
    let word = lay_term(words, head.get())?;
    words[first as usize] = word;
    let result = encode(Cell::Cons(first));
    let mut second = first + 1;
    let mut rest = tail.get();
    while let Term::Cons(item, next) = rest {
        let pair = take(words, 2)?;
        let word = lay_term(words, item.get())?;
        words[pair as usize] = word;
        words[second as usize] = encode(Cell::Cons(pair));
        second = pair + 1;
        rest = next.get();
    }
    let last = lay_term(words, rest)?;
    words[second as usize] = last;
    Some(result)
}

/// The word of a tuple of these parts.
#[cycle(terms)]
fn lay_tuple(words: &mut [u64], parts: &[Term]) -> Option<u64>
    requires pages { ArePages words.old }
    requires narrow { IsNarrow (tuple (parts_of parts.now)) }
    requires numbered { (vars : ℕ) × Over (IsNumbered vars) (tuple (parts_of parts.now)) }
    ensures none { IfNone result (first_fit (rooms words.old) (term_sizes (tuple (parts_of parts.now))) ≡ None) }
    ensures pages { OnSome result (ArePages words.new) }
    ensures laid { (vars : ℕ) → Over (IsNumbered vars) (tuple (parts_of parts.now))
        → IfSome result (λ x. LaysTerm vars (tuple (parts_of parts.now)) x words.old words.new) }
{
    let count = parts.len() as u32;
    let at = take(words, count + 1)?;
    words[at as usize] = encode(Cell::Raw(count));
    for (place, part) in parts.iter().enumerate() {
        let word = lay_term(words, part)?;
        words[at as usize + 1 + place] = word;
    }
    Some(encode(Cell::Tuple(at)))
}
