// The order of values that may be absent: absent comes before present. (By hand, as that of sequences: the project asks for one order
// over its own traits, and the library's `Ord` gives no `Order`.)
ghost use Rattle.std.specs.Prelude.{◌≡◌};
ghost use Rattle.order.specs.Orders.{by_option};
ghost use Rattle.std.proofs.Common.{rules};

use crate::traits::{Comparing, Order, TotalOrder};

impl<T: Comparing> Comparing for Option<T> {
    ghost order = { by_option T.Comparing.order };

    ghost exchange = { Prim.search rules };

    fn compare(&self, other: &Option<T>) -> Order {
        match (self, other) {
            (None, None) => Order::Equal,
            (None, Some(_)) => Order::Less,
            (Some(_), None) => Order::Greater,
            (Some(x), Some(y)) => x.compare(y),
        }
    }
}

impl<T: TotalOrder> TotalOrder for Option<T> {
    ghost total = { by_option T.TotalOrder.total };

    ghost agrees = { Prim.search rules };

    ghost decided = { Prim.search rules };

    ghost identical = { Prim.search rules };

    ghost transitive = { Prim.search rules };
}
