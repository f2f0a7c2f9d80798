//! A place in a host's memory for the test case that it holds.
ghost use Rattle.std.specs.{Prelude.{◌≡◌, Option, Some, None, is_some, true}, Option.option_map};
ghost use Rattle.tc_rules.specs.Prelude.{Case};
ghost use Rattle.tc_table.specs.Calls.{boxed_at, owned_at};

use std::alloc::Global;
use std::marker::Model;
use std::mem::replace;
use std::ptr::null_mut;
use tc_rules::Table;

/// What a box is made of.
struct Bare<T> {
    at: *mut T,
    ghost value: { T },
}

impl<T> Model for Bare<T> {
    ghost also_owns = { λ b. boxed_at T.row b.at b.value };
}

impl<T: Drop> Bare<T> {
    /// Takes the box apart.
    fn of(boxed: Box<T, Global>) -> Bare<T>
        ensures { result.value ≡ boxed.value }
    {
        let at = Box::into_raw(boxed);
        Bare { at }
    }

    /// Puts the box together.
    fn boxed(self, alloc: Global) -> Box<T, Global>
        ensures { result.value ≡ self.value }
    {
        let Bare { at } = self;
        unsafe { Box::from_raw(alloc, at) }
    }
}

/// A pointer that owns a table on the heap, or nothing.
#[repr(C)]
pub struct OwnedTable {
    at: *mut u8,
    pub ghost case: { Option Case },
}

impl Model for OwnedTable {
    ghost also_owns = { λ o. owned_at o.at o.case };
}

unsafe impl Send for OwnedTable {}

/// A place for a test case in a host's memory: it holds none, or one that is open.
#[repr(C)]
pub struct HeldCase {
    pub owned: OwnedTable,
    is_open: bool,
    ghost agrees: { is_open ≡ is_some owned.case },
}

impl OwnedTable {
    // Nothing.
    fn none() -> OwnedTable
        ensures { result.case ≡ None }
    {
        OwnedTable { at: null_mut() }
    }

    // This table.
    fn of(table: Bare<Table>) -> OwnedTable
        ensures { result.case ≡ Some table.value }
    {
        let Bare { at } = table;
        OwnedTable { at: at as *mut u8 }
    }

    // The table that is owned.
    fn bare(self) -> Bare<Table>
        requires { is_some self.case ≡ true }
        ensures { self.case ≡ Some result.value }
    {
        let OwnedTable { at } = self;
        Bare {
            at: at as *mut Table,
        }
    }
}

impl HeldCase {
    /// Whether the place holds a test case.
    pub fn is_open(&self) -> bool
        ensures { result ≡ is_some self.now.owned.case }
    {
        self.is_open
    }

    /// Takes the table out of the place, if it holds one.
    pub fn take(&mut self, alloc: Global) -> Option<Box<Table, Global>>
        ensures taken { self.old.owned.case ≡ option_map (λ t. t.value) result }
        ensures closed { self.new.owned.case ≡ None }
    {
        let HeldCase { owned, is_open } = replace(
            self,
            HeldCase {
                owned: OwnedTable::none(),
                is_open: false,
            },
        );
        if is_open {
            return Some(owned.bare().boxed(alloc));
        }
        let OwnedTable { at: _ } = owned;
        None
    }

    /// Puts the table into the place, which holds none.
    pub fn put(&mut self, table: Box<Table, Global>)
        requires { self.old.owned.case ≡ None }
        ensures { self.new.owned.case ≡ Some table.value }
    {
        let HeldCase {
            owned: OwnedTable { at: _ },
            is_open: _,
        } = replace(
            self,
            HeldCase {
                owned: OwnedTable::of(Bare::of(table)),
                is_open: true,
            },
        );
    }
}

fn crosses<T: Send>(_x: &T) {}

// The next call may come from another thread. Nothing else asks for the proof that this is sound.
fn may_cross(place: &HeldCase) {
    crosses(place);
}
