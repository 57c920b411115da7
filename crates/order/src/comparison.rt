// The six comparisons, once for every type that can be compared.
ghost use Rattle.std.specs.Prelude.{◌≡◌};
ghost use Rattle.order.specs.Orders.{satisfies};

use crate::traits::{Comparing, Order};

// An enum in the place of function pointers, which no function may hand out.
#[derive(Clone, Copy, PartialEq, Eq, Debug)]
pub enum Comparison {
    Equals,
    Differs,
    Less,
    LessOrEqual,
    Greater,
    GreaterOrEqual,
}

// Whether an answer is one that the comparison takes.
pub fn satisfied(comparison: Comparison, order: Order) -> bool
    ensures { result ≡ satisfies comparison order }
{
    match comparison {
        Comparison::Equals => matches!(order, Order::Equal),
        Comparison::Differs => !matches!(order, Order::Equal),
        Comparison::Less => matches!(order, Order::Less),
        Comparison::LessOrEqual => matches!(order, Order::Less | Order::Equal),
        Comparison::Greater => matches!(order, Order::Greater),
        Comparison::GreaterOrEqual => matches!(order, Order::Greater | Order::Equal),
    }
}

// Whether x and y stand to each other as the comparison says.
pub fn holds<T: Comparing>(comparison: Comparison, x: &T, y: &T) -> bool
    ensures { result ≡ satisfies comparison (T.order x.now y.now) }
{
    satisfied(comparison, x.compare(y))
}
