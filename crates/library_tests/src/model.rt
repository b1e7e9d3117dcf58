//! Tests of `fcp_model`.
use fcp_model::log_lines::{
    push_end_line, push_fail_line, push_hang_line, push_outcome_line, push_woken,
};
use fcp_model::spelling::{Decimal, push_string};
use fcp_model::{Code, Fault, Names, NoMemory, Outcome, Place, Proc, Refused, Seq, Sym, Text};
use std::alloc::Global;
use std::test::Fail;

/// Each of the strings `s`, `ss`, `sss` and so on has the next number after the nine reserved ones, and the same number again.
#[test]
fn thousands_of_strings_are_noted(rt: HostRuntime) -> Result<(), Fail> {
    let mut names = Names::for_text(rt.alloc(), b"p(a).")?;
    let mut text = String::new(rt.alloc());
    for number in 9..3009 {
        text.push_str("s")?;
        assert_eq!(rt; names.note(text.as_str())?, Sym(number));
        assert_eq!(rt; names.note(text.as_str())?, Sym(number));
    }
    assert_eq!(rt; names.get(Sym(10)), Some("ss"));
    Ok(())
}

#[test]
fn a_sequence_is_a_list(rt: HostRuntime) -> Result<(), Fail> {
    let mut numbers = Seq::empty(rt.alloc());
    assert!(rt; numbers.push(5u32).is_ok());
    let numbers = numbers.with(7)?;
    assert_eq!(rt; numbers.len(), 2);
    assert_eq!(rt; numbers.get(1), Some(&7));
    assert_eq!(rt; numbers.get(2), None);
    let numbers = Seq::of(numbers.into_vec());
    assert_eq!(rt; numbers.as_slice(), [5, 7].as_slice());
    Ok(())
}

#[test]
fn texts_are_shown(rt: HostRuntime) -> Result<(), Fail> {
    let alloc = rt.alloc();
    assert_eq!(rt; Text::make(alloc, "shown")?.as_str(), "shown");
    let code = Code::TooDeep;
    assert_eq!(rt; code.number(), 6);
    let fault = Refused::from(Fault { code, at: 7 });
    assert_eq!(rt; format!(in alloc; "{fault}")?.as_str(), "fault at byte 7");
    let lack = Refused::from(NoMemory);
    assert_eq!(rt; format!(in alloc; "{lack}")?.as_str(), "out of memory");
    Ok(())
}

/// The lines of a log, after three strings.
fn spelled(alloc: Global) -> Result<Vec<u8>, NoMemory> {
    let process = Proc {
        entry: 0,
        number: 12,
    };
    let place = Place {
        entry: 34,
        number: 5,
    };
    let mut text = Vec::new(alloc);
    for string in ["it's", "aB_1", ""] {
        push_string(&mut text, string)?;
    }
    push_hang_line(&mut text, 7, process, &[place])?;
    push_fail_line(&mut text, 8, process)?;
    push_woken(&mut text, &[process])?;
    push_end_line(&mut text, 8)?;
    push_outcome_line(&mut text, Outcome::Held)?;
    Ok(text)
}

#[test]
fn lines_are_spelled(rt: HostRuntime) -> Result<(), Fail> {
    let wanted =
        b"'it''s'aB_1''7 hang #0.12 _34.5\n8 fail #0.12\n wakes #0.12end 8\noutcome held\n";
    assert_eq!(rt; spelled(rt.alloc())?.as_slice(), wanted.as_slice());
    let number = Decimal::of(-9223372036854775807);
    assert_eq!(rt; number.as_bytes(), b"-9223372036854775807".as_slice());
    Ok(())
}
