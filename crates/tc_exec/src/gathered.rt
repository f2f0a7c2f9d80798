//! What the runs of a case have left.
ghost use Rattle.std.specs.Prelude.{◌≡◌, ◌<◌, ◌+◌, ◌++◌, ◌∷◌, ◌||◌, []};
ghost use Rattle.std.specs.Vec.{vec_len, vec_capacity};
ghost use Rattle.tc_exec.specs.Inside.{is_starved};

use crate::handed::Handed;
use crate::job::Ending;
use tc_book::Left;

/// What the runs have left so far.
#[derive(Drop)]
pub(crate) struct Gathered {
    pub(crate) lefts: Vec<Left>,
    /// Whether memory ran out in a behaviour.
    pub(crate) starved: bool,
}

impl Gathered {
    /// Takes what one more run left.
    pub(crate) fn take(&mut self, handed: Handed)
        requires { vec_len self.old.lefts < vec_capacity self.old.lefts }
        ensures room { vec_capacity self.new.lefts ≡ vec_capacity self.old.lefts }
        ensures count { vec_len self.new.lefts ≡ vec_len self.old.lefts + 1 }
        ensures left { self.new.lefts.items ≡ self.old.lefts.items ++ handed.left ∷ [] }
        ensures starved { self.new.starved ≡ (self.old.starved || is_starved handed.ending) }
    {
        let (left, ending) = handed.into_parts();
        self.lefts.push_reserved(left);
        self.starved = self.starved || ending == Ending::Starved;
    }
}
