//! Distinct names, in their order, and those of behaviours.
ghost use Rattle.std.specs.Prelude.{◌≡◌, ◌==◌, ◌<◌, ◌≤◌, length, [], OnOk, OnErr, IfOk, IfSome, is_some, not};
ghost use Rattle.tc_reader.specs.{Inside.add_head, Inside.names_of, Inside.place_in, Names.add, Names.among, Names.index_of, Scope.parameters_of};

use crate::Name;
use indexmap::{IndexMap, IndexSet};
use std::alloc::{AllocError, AllocFailed, Global};
use std::marker::Model;

/// Distinct names, in the order in which they came.
#[derive(Drop)]
pub(crate) struct Names {
    set: IndexSet<Name>,
}

impl Model for Names {
    ghost use Rattle.std.specs.Prelude.{List, ℕ};

    ghost Value = { List (List ℕ) };

    ghost view = { λ n. n.set.keys };
}

/// Whether the name is one of these.
#[tactic(auto, unfolding(crate::specs::Words::is_text, crate::specs::Names::among))]
pub(crate) fn is_one_of(name: &Name, names: &[Name]) -> bool
    ensures { result ≡ among name.now names.now }
{
    names.iter().any(|other| name.bytes() == other.bytes())
}

impl Names {
    /// No name.
    pub(crate) fn new(alloc: Global) -> Names
        ensures { result ≡ [] }
    {
        Names {
            set: IndexSet::new(alloc),
        }
    }

    /// The place of the name, if it is one of them.
    #[tactic(auto, unfolding(crate::specs::Words::is_text))]
    pub(crate) fn find(&self, name: &Name) -> Option<usize>
        ensures place { result ≡ place_in self.now name.now }
        ensures within { IfSome result (λ place. place < length self.now) }
    {
        self.set.get_index_of(name)
    }

    /// Takes all names out.
    pub(crate) fn clear(&mut self)
        ensures { self.new ≡ [] }
    {
        self.set.clear();
    }

    /// Adds the name after the others, if it is none of them. It answers whether it is new.
    #[tactic(auto, unfolding(crate::specs::Words::is_text, crate::specs::Names::among))]
    pub(crate) fn add(&mut self, name: Name) -> Result<bool, AllocFailed<Name>>
        ensures new { IfOk result (λ is_new. is_new ≡ not (among name self.old)) }
        ensures added { OnOk result (self.new ≡ add name self.old) }
        ensures same { OnErr result (self.new ≡ self.old) }
    {
        self.set.insert(name)
    }
}

/// The behaviours of a test case, each with the number of its parameters, in the order of the text.
#[derive(Drop)]
pub(crate) struct Heads {
    map: IndexMap<Name, usize>,
}

impl Model for Heads {
    ghost use Rattle.std.specs.Prelude.{List, ℕ};

    ghost Value = { List (List ℕ × ℕ) };

    ghost view = { λ h. h.map.entries };
}

impl Heads {
    /// No behaviour.
    pub(crate) fn new(alloc: Global) -> Heads
        ensures { result ≡ [] }
    {
        Heads {
            map: IndexMap::new(alloc),
        }
    }

    /// Whether there is no behaviour.
    pub(crate) fn is_empty(&self) -> bool
        ensures { result ≡ (length self.now == 0) }
    {
        self.map.is_empty()
    }

    /// How many parameters the behaviour of that name has, if there is one.
    #[tactic(auto, unfolding(crate::specs::Words::is_text, crate::specs::Scope::parameters_of))]
    pub(crate) fn parameters_of(&self, name: &Name) -> Option<usize>
        ensures { result ≡ parameters_of name.now self.now }
    {
        self.map.get(name).copied()
    }

    /// The place of the behaviour of that name; the number of behaviours if there is none.
    #[tactic(auto, unfolding(crate::specs::Words::is_text, crate::specs::Names::index_of))]
    pub(crate) fn place_of(&self, name: &Name) -> usize
        ensures place { result ≡ index_of name.now (names_of self.now) }
        ensures within { result ≤ length self.now }
    {
        match self.map.get_index_of(name) {
            Some(index) => index,
            None => self.map.len(),
        }
    }

    /// Takes all behaviours out.
    pub(crate) fn clear(&mut self)
        ensures { self.new ≡ [] }
    {
        self.map.clear();
    }

    /// Adds a behaviour after the others, if none of them has its name. It answers whether one has.
    pub(crate) fn add(&mut self, name: &Name, parameters: usize) -> Result<bool, AllocError>
        ensures there { IfOk result (λ is_there. is_there ≡ is_some (parameters_of name.now self.old)) }
        ensures added { OnOk result (self.new ≡ add_head name.now parameters self.old) }
    {
        if self.parameters_of(name).is_some() {
            return Ok(true);
        }
        self.map.insert(name.copy(), parameters)?;
        Ok(false)
    }
}
