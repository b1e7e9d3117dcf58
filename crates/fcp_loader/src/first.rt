//! Which of two faults is the first.
ghost use Rattle.std.specs.Prelude.{◌≡◌, if◌then◌else◌, None, Some};
ghost use Rattle.fcp_loader.specs.Firsts as spec;
ghost use Rattle.fcp_loader.specs.Firsts.{FirstIsLeast};

use fcp_model::{Code, Fault};

/// Whether a fault comes before another: by the number of its code, and then by its place.
fn is_before(fault: &Fault, other: &Fault) -> bool
    ensures { result ≡ spec.is_before fault.now other.now }
{
    let (code, other_code) = (fault.code.number(), other.code.number());
    code < other_code || (code == other_code && fault.at < other.at)
}

/// The earlier of two, where there are two.
pub(crate) fn earlier(first: Option<Fault>, second: Option<Fault>) -> Option<Fault>
    ensures { result ≡ spec.earlier first second }
{
    match (first, second) {
        (Some(fault), Some(other)) => {
            Some(if is_before(&other, &fault) {
                other
            } else {
                fault
            })
        }
        (Some(fault), None) => Some(fault),
        (None, second) => second,
    }
}

/// The fault of a kind at a place, where there is one.
pub(crate) fn fault_if(there: bool, code: Code, at: u32) -> Option<Fault>
    ensures { result ≡ (if there then Some (record { code = code; at = at }) else None) }
{
    if there {
        Some(Fault { code, at })
    } else {
        None
    }
}

/// The first of some faults is the one before which none of them comes, in whatever order they are listed.
pub fn first_is_least()
    ensures { FirstIsLeast }
{}
