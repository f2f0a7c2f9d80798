//! A run, by its number.
ghost use Rattle.std.specs.Prelude.{◌≡◌};

/// A run, by its number: one behaviour of the test case. Run 0 is that of the main test component.
#[derive(Clone, Copy, PartialEq, Eq, Default, Debug)]
pub struct Run(pub u16);

impl Run {
    /// An equal value.
    pub fn copy(&self) -> Run
        ensures { result ≡ self.now }
    {
        *self
    }
}
