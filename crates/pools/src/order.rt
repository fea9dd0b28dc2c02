ghost use Rattle.std.specs.Prelude.{◌≡◌, Decides};

/// A kind of element with an order: `before x y` says that x comes before y.
/// Elements of which neither comes before the other are equal in the order, and need not be the same.
pub trait Ordered: Copy {
    ghost before: { Self → Self → Type 0 };

    fn is_before(&self, other: &Self) -> bool
        ensures { Decides result (before self.now other.now) };

    ghost irreflexive: { (x : Self) → before x x → ⊥ };

    ghost transitive: { (x y z : Self) → before x y → before y z → before x z };

    ghost not_before_chains: { (x y z : Self) → (before x y → ⊥) → (before y z → ⊥) → before x z → ⊥ };
}

/// A kind whose order tells any two elements apart. No proof about pools needs it but that of `one_least`.
pub trait TellsApart: Ordered {
    ghost apart: { (x y : Self) → (Self.Ordered.before x y → ⊥) → (Self.Ordered.before y x → ⊥) → x ≡ y };
}
