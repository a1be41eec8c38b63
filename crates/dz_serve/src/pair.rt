//! Two of a kind.

ghost use Rattle.std.specs.Prelude.{◌≡◌};

/// Two of a kind, the first worker's and the second's.
#[derive(Drop)]
pub(crate) struct Pair<T> {
    pub first: T,
    pub second: T,
}

impl<T> Pair<T> {
    /// The first and the second.
    pub fn parts(self) -> (T, T)
        ensures first { result.0 ≡ self.first }
        ensures second { result.1 ≡ self.second }
    {
        let Pair { first, second } = self;
        (first, second)
    }
}
