// The orders of whole numbers, bytes, characters and truth values: each has a rank, and the rank decides.
ghost use Rattle.std.specs.Prelude.{◌≡◌, ℤ, cond, pos};
ghost use Rattle.order.specs.Orders.{by_int};
ghost use Rattle.std.proofs.Common.{rules};

use crate::traits::{Comparing, Order, TotalOrder};

// Values that stand in one line, each at a place of its own.
pub trait Ranked: Copy {
    ghost place: { Self → ℤ };

    fn rank(self) -> i64
        ensures { result ≡ place self };

    ghost apart: { (x y : Self) → place x ≡ place y → x ≡ y };
}

impl Ranked for i64 {
    ghost place = { λ n. n };

    ghost apart = { Prim.search rules };

    fn rank(self) -> i64 {
        self
    }
}

impl Ranked for u8 {
    ghost place = { pos };

    ghost apart = { Prim.search rules };

    fn rank(self) -> i64 {
        self.into()
    }
}

impl Ranked for char {
    ghost place = { pos };

    ghost apart = { Prim.search rules };

    fn rank(self) -> i64 {
        u32::from(self).into()
    }
}

// False comes before true.
impl Ranked for bool {
    ghost place = { λ b. pos (cond b 1 0) };

    ghost apart = { Prim.search rules };

    fn rank(self) -> i64 {
        i64::from(self)
    }
}

impl<T: Ranked> Comparing for T {
    ghost order = { λ x y. by_int (T.place x) (T.place y) };

    ghost exchange = { Prim.search rules };

    fn compare(&self, other: &T) -> Order {
        self.rank().cmp(&other.rank()).into()
    }
}

impl<T: Ranked> TotalOrder for T {
    ghost total = { λ x y. by_int (T.place x) (T.place y) };

    ghost agrees = { Prim.search rules };

    ghost decided = { Prim.search rules };

    ghost identical = { Prim.search rules };

    ghost transitive = { Prim.search rules };
}
