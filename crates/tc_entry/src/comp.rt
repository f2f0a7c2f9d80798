//! A component, by its number.
ghost use Rattle.std.specs.Prelude.{◌≡◌, IsTrue, ◌↔◌};

/// A test component, by its number. Component 0 is the main test component.
#[derive(Clone, Copy, PartialEq, Eq, Default, Debug)]
pub struct Comp(pub u32);

impl Comp {
    /// An equal value.
    pub fn copy(&self) -> Comp
        ensures { result ≡ self.now }
    {
        *self
    }
}

/// Whether two lists have the same components.
pub(crate) fn same_comps(a: &[Comp], b: &[Comp]) -> bool
    ensures { IsTrue result ↔ (a.now ≡ b.now) }
{
    let mut rest = a;
    let mut others = b;
    while let Some((x, xs)) = rest.split_first() {
        let Some((y, ys)) = others.split_first() else {
            return false;
        };
        if *x != *y {
            return false;
        }
        rest = xs;
        others = ys;
    }
    others.is_empty()
}
