//! What a chain figure is.

ghost use Rattle.std.specs.Prelude.{◌≡◌};
ghost use Rattle.chains.specs.Figures.{Figure, Laws};

/// A value for each chain: that of a block alone, a value extended back over a step, and the better of two.
/// Better need not be idempotent: a figure may count chains.
pub trait ChainFigure {
    type Value: Copy;

    ghost meaning: { Self → Figure Self.Value };

    // what each implementation owes, and no more
    ghost laws: { (f : Self) → Laws (meaning f) };

    /// The value of a block alone.
    fn alone(&self, block: u32) -> Self::Value
        ensures { result ≡ (meaning self.now).alone block };

    /// The value of a chain that begins with `to`, extended back over the step from `from` to `to`.
    fn extend(&self, from: u32, to: u32, v: Self::Value) -> Self::Value
        ensures { result ≡ (meaning self.now).extended from to v };

    /// The better of two values.
    fn better(&self, a: Self::Value, b: Self::Value) -> Self::Value
        ensures { result ≡ (meaning self.now).better a b };
}
