//! The components that a script names: as a line does, by name, and as a step does, by number.
ghost use Rattle.std.specs.{Prelude.{◌≡◌, ◌<◌, ◌≤◌, [], ◌∷◌, ◌++◌, length, IsTrue, ◌↔◌}, Bool.{OnTrue, OnFalse}};
ghost use Rattle.tc_entry.specs.declared.limits.TheConstants.{ARGUMENTS};
ghost use Rattle.tc_step.specs.Steps.{IsBound};

use arrayvec::ArrayVec;
use std::marker::Model;
use tc_entry::ARGUMENTS;

/// A component, as a script names it. A line has names for the bound ones, a step numbers.
#[derive(Clone, Copy, PartialEq, Eq, Default, Debug, Drop)]
pub enum Place<B = u16> {
    /// The main test component (`mtc`, ES 201 873-1).
    #[default]
    Main,
    /// The component that the behaviour runs on (`self`, ES 201 873-1).
    Own,
    /// One of the components that the behaviour was given as arguments and has created. They are numbered in that
    /// order, from 0.
    Bound(B),
}

/// Which components are stopped or killed: one, or all parallel ones.
#[derive(Clone, Copy, PartialEq, Eq, Debug, Drop)]
pub enum GroupPlace<P = Place> {
    One(P),
    All,
}

/// Which components are asked about or waited for: one, any parallel one, all parallel ones.
#[derive(Clone, Copy, PartialEq, Eq, Debug, Drop)]
pub enum TargetPlace<P = Place> {
    One(P),
    Any,
    All,
}

impl Place {
    /// Whether the place is one of a behaviour that has that many components bound.
    pub(crate) fn is_bound(self, count: usize) -> bool
        ensures { IsTrue result ↔ IsBound count self }
    {
        match self {
            Place::Bound(index) => usize::from(index) < count,
            _ => true,
        }
    }
}

/// The arguments of a start step: at most `ARGUMENTS` places, held in place.
#[derive(PartialEq, Eq, Debug, Drop)]
pub struct Places {
    places: ArrayVec<Place, ARGUMENTS>,
}

impl Model for Places {
    ghost use Rattle.std.specs.Prelude.{List, ℕ, length, ◌≤◌};
    ghost use Rattle.tc_entry.specs.declared.limits.TheConstants.{ARGUMENTS};
    ghost use Rattle.tc_step.specs.declared.place.Place.{Place};

    ghost Value = { List (Place ℕ) };

    ghost view = { λ p. p.places.items };

    ghost invariant = { λ p. length p.places.items ≤ ARGUMENTS };

    ghost inverse = { λ xs. record { places = record { items = xs } } };
}

impl Places {
    /// No place.
    pub fn new() -> Places
        ensures { result ≡ [] }
    {
        Places {
            places: ArrayVec::new(),
        }
    }

    /// Adds a place, unless there are `ARGUMENTS`: then it returns false and nothing is changed.
    pub fn push(&mut self, place: Place) -> bool
        ensures pushed { OnTrue result (self.new ≡ self.old ++ place ∷ []) }
        ensures full { OnFalse result (self.new ≡ self.old) }
        ensures answer { IsTrue result ↔ (length self.old < ARGUMENTS) }
    {
        self.places.try_push(place).is_ok()
    }

    /// The places, in their order.
    pub fn as_slice(&self) -> &[Place]
        ensures same { result.now ≡ self.now }
        ensures few { length self.now ≤ ARGUMENTS }
    {
        self.places.as_slice()
    }
}
