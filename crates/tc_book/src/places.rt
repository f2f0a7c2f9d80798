//! The places in the history that are kept for each run.
ghost use Rattle.std.specs.{Prelude.{◌≡◌, ◌+◌, ◌≤◌, set}, Vec.vec_len};
ghost use Rattle.tc_entry.specs.declared.limits.TheConstants.{BEHAVIOURS};
ghost use Rattle.tc_book.specs.{Inside.size_of, Inside.total, OpenCase.places_at};

use tc_verdict::Run;

/// The places in the history that are kept for a run.
#[derive(Clone, Copy, PartialEq, Eq, Debug)]
pub struct Places {
    /// A place for its leaving.
    pub leave: bool,
    /// A place for the Wake of its parked wait.
    pub wake: bool,
}

fn size_of(places: Places) -> usize
    ensures { result ≡ size_of places }
{
    usize::from(places.leave) + usize::from(places.wake)
}

/// The places of a run, none if there is no such run.
pub(crate) fn places_of(all: &[Places], run: Run) -> Places
    ensures { result ≡ places_at all.now run }
{
    let none = Places {
        leave: false,
        wake: false,
    };
    all.get(usize::from(run.0)).copied().unwrap_or(none)
}

/// Changes the places of a run, and returns how many are kept then.
#[tactic(auto, using(crate::proofs::Keeping::total_bound, crate::proofs::Keeping::one_at_most, crate::proofs::Keeping::total_set, crate::proofs::Keeping::no_place_beyond))]
pub(crate) fn put(all: &mut Vec<Places>, count: usize, run: Run, now: Places) -> usize
    requires counted { count ≡ total all.old.items }
    requires few { vec_len all.old ≤ BEHAVIOURS }
    ensures items { all.new.items ≡ set all.old.items run.0 now }
    ensures counted { result ≡ total all.new.items }
    ensures len { vec_len all.new ≡ vec_len all.old }
    ensures more { result + size_of (places_at all.old.items run) ≤ count + size_of now }
{
    let i = usize::from(run.0);
    if i >= all.len() {
        return count;
    }
    let was = places_of(all, run);
    all[i] = now;
    count + size_of(now) - size_of(was)
}
