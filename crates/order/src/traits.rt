// What comparing two values answers, and the two traits for it.
ghost use Rattle.std.specs.Prelude.{◌≡◌, ◌≢◌};
ghost use Rattle.order.specs.declared.traits.Order.{Order};
ghost use Rattle.order.specs.Orders.{exchanged, order_number, ordered};

use std::cmp::Ordering;

// No Option<Ordering>: the four answers have numbers of their own, which C reads, and a law over all four.
#[derive(Clone, Copy, PartialEq, Eq, Debug)]
pub enum Order {
    Less,
    Equal,
    Greater,
    Unordered,
}

impl From<Order> for u8 {
    ghost from_gives = { λ o n. n ≡ order_number o };

    fn from(order: Order) -> u8 {
        order as u8
    }
}

impl From<Ordering> for Order {
    ghost from_gives = { λ o r. r ≡ ordered o };

    fn from(ordering: Ordering) -> Order {
        match ordering {
            Ordering::Less => Order::Less,
            Ordering::Equal => Order::Equal,
            Ordering::Greater => Order::Greater,
        }
    }
}

impl Order {
    // The order of the exchanged pair.
    pub fn reverse(self) -> Order
        ensures { result ≡ exchanged self }
    {
        match self {
            Order::Less => Order::Greater,
            Order::Greater => Order::Less,
            other => other,
        }
    }
}

// Values that can be compared. Exchanging them exchanges less and greater, and keeps the other two answers.
pub trait Comparing {
    ghost order: { Self → Self → Order };

    fn compare(&self, other: &Self) -> Order
        ensures { result ≡ order self.now other.now };

    ghost exchange: { (x y : Self) → order y x ≡ exchanged (order x y) };
}

// Values in one line: never unordered, equal only where identical, and less is transitive.
pub trait TotalOrder: Comparing {
    ghost total: { Self → Self → Order };

    fn total_compare(&self, other: &Self) -> Order
        ensures { result ≡ total self.now other.now }
    {
        self.compare(other)
    }

    ghost agrees: { (x y : Self) → total x y ≡ Self.Comparing.order x y };

    ghost decided: { (x y : Self) → total x y ≢ Order.Unordered };

    ghost identical: { (x y : Self) → total x y ≡ Order.Equal → x ≡ y };

    ghost transitive: { (x y z : Self) → total x y ≡ Order.Less → total y z ≡ Order.Less → total x z ≡ Order.Less };
}
