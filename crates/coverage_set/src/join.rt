//! Values that stand for sets, and are joined.

ghost use Rattle.std.specs.Prelude.{◌≡◌, OnOk, OnErr};
ghost use Rattle.coverage_set.specs.Joined.{IsUnionBy, AreSameBy, IsEquivalenceRelation};
ghost use Rattle.coverage_set.specs.Joined.{union_is_commutative, union_is_associative, union_is_idempotent};

use std::alloc::AllocError;

/// A type whose values stand for sets, whatever they are kept in. What is proved of joined values over
/// this trait holds of each such type.
pub trait Join {
    // What may be in the set of a value, and what is.
    ghost Part: { Type 0 };

    ghost Has: { Self → Part → Type 0 };

    // Which values may be joined, as coverages of one object may.
    ghost AreAlike: { Self → Self → Type 0 };

    /// Adds what another value stands for. Where memory is refused, all is as before.
    fn join(&mut self, other: &Self) -> Result<(), AllocError>
        requires { AreAlike other.now self.old }
        ensures union { OnOk result (IsUnionBy Has self.old other.now self.new) }
        ensures alike { AreAlike self.new self.old }
        ensures refused { OnErr result (self.new ≡ self.old) };

    ghost alike_law: { IsEquivalenceRelation AreAlike };

    // The order and the grouping of values, and how often one comes, don't matter.
    ghost commutative: { (a b ab ba : Self) → IsUnionBy Has a b ab → IsUnionBy Has b a ba
        → AreSameBy Has ab ba } = { union_is_commutative Has };

    ghost associative: { (a b c ab bc left right : Self) → IsUnionBy Has a b ab → IsUnionBy Has ab c left
        → IsUnionBy Has b c bc → IsUnionBy Has a bc right
        → AreSameBy Has left right } = { union_is_associative Has };

    ghost idempotent: { (a both : Self) → IsUnionBy Has a a both
        → AreSameBy Has a both } = { union_is_idempotent Has };
}
