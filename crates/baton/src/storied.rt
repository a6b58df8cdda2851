ghost use Rattle.std.specs.Prelude.{◌≡◌, List, length};

/// A value that keeps a history.
pub trait Storied {
    type Entry;

    type Origin;

    /// All that happened to the value, first things first.
    ghost history: { Self → List Self.Entry };

    /// What the value began with: it stays the same as the history grows.
    ghost origin: { Self → Self.Origin };

    /// How many entries the history has.
    fn length(&self) -> u64
        ensures { result ≡ length (history self.now) };
}
