//! The arguments of a Start.
ghost use Rattle.std.specs.{Prelude.{◌≡◌, ◌<◌, ◌≤◌, [], ◌∷◌, ◌++◌, length, IsTrue, ◌↔◌, nat_eq}, Bool.{OnFalse, OnTrue}, Cmp.Lexicographic.{lists_equiv, lists_per, pointwise}, Cmp.{nat_eq_equiv, on_equiv, on_per, partial_equiv_from_equiv}, Ordering.on};
ghost use Rattle.tc_entry.specs.declared.limits.TheConstants.{ARGUMENTS};

use crate::comp::{Comp, same_comps};
use crate::limits::ARGUMENTS;
use std::marker::Model;

/// The arguments of a Start: at most `ARGUMENTS` components, held in place.
#[derive(Debug, Drop)]
pub struct Args {
    comps: [Comp; ARGUMENTS],
    len: u8,
}

impl Model for Args {
    ghost use Rattle.std.specs.Prelude.{◌≡◌, ◌≤◌, ◌++◌, ◌-◌, List, length, replicate, take};
    ghost use Rattle.tc_entry.specs.declared.comp.Comp.{Comp};

    ghost Value = { List Comp };

    ghost view = { λ a. take a.len a.comps };

    // What is not used is component 0, so that two with the same components are the same value.
    ghost invariant = { λ a. (a.len ≤ 4) × (length (take a.len a.comps) ≡ a.len)
        × (a.comps ≡ take a.len a.comps ++ replicate (4 - a.len) (record { 0 = 0 })) };

    ghost inverse = { λ cs. record {
      comps = cs ++ replicate (4 - length cs) (record { 0 = 0 });
      len = length cs;
    } };
}

impl PartialEq for Args {
    ghost eq = { pointwise (on (λ c. c.0) nat_eq) };

    ghost laws = { lists_per (on_per (λ c. c.0) (partial_equiv_from_equiv nat_eq_equiv)) };

    fn eq(&self, other: &Args) -> bool {
        self.as_slice() == other.as_slice()
    }
}

impl Eq for Args {
    ghost laws = { lists_equiv (on_equiv (λ c. c.0) nat_eq_equiv) };
}

impl Args {
    /// No component.
    pub fn new() -> Args
        ensures { result ≡ [] }
    {
        Args {
            comps: [Comp(0); ARGUMENTS],
            len: 0,
        }
    }

    /// Adds a component, unless there are `ARGUMENTS`: then it returns false and nothing is changed.
    pub fn push(&mut self, comp: Comp) -> bool
        ensures pushed { OnTrue result (self.new ≡ self.old ++ comp ∷ []) }
        ensures full { OnFalse result (self.new ≡ self.old) }
        ensures answer { IsTrue result ↔ (length self.old < 4) }
    {
        let at = self.len as usize;
        if at >= ARGUMENTS {
            return false;
        }
        self.comps[at] = comp;
        self.len += 1;
        true
    }

    /// The components, in their order.
    pub fn as_slice(&self) -> &[Comp]
        ensures same { result.now ≡ self.now }
        ensures few { length self.now ≤ ARGUMENTS }
    {
        &self.comps[..usize::from(self.len)]
    }

    /// An equal value.
    pub fn copy(&self) -> Args
        ensures { result ≡ self.now }
    {
        Args {
            comps: self.comps,
            len: self.len,
        }
    }

    /// Whether both are the same list.
    pub fn same(&self, other: &Args) -> bool
        ensures { IsTrue result ↔ (self.now ≡ other.now) }
    {
        same_comps(self.as_slice(), other.as_slice())
    }
}
