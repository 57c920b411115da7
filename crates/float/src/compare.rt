// Comparing floats: two that are closer than rounding can tell are equal.
ghost use Rattle.std.specs.Prelude.{◌≡◌};
ghost use Rattle.float.specs.Tolerance.{by_float, by_ieee, unscaled, divisor, close};
ghost use Rattle.float.specs.Exactly.{Exact, Divided};
ghost use Rattle.float.specs.Agreement.{Agrees};
ghost use Rattle.float.specs.Exchange.{floats_exchange};

use order::{Comparing, Order};

// By IEEE 754, and Equal beside a NaN, where the caller has answered already.
fn ieee(x: f64, y: f64) -> Order
    ensures { result ≡ by_ieee x y }
{
    x.partial_cmp(&y).map_or(Order::Equal, Order::from)
}

fn is_unscaled(x: f64, y: f64) -> bool
    ensures { result ≡ unscaled x y }
{
    x * y == 0.0
}

fn find_divisor(x: f64, y: f64) -> f64
    ensures { result ≡ divisor x y }
{
    if is_unscaled(x, y) {
        1.0
    } else {
        x.abs().max(y.abs())
    }
}

fn are_close(x: f64, y: f64) -> bool
    ensures { result ≡ close x y }
{
    (x - y).abs() / find_divisor(x, y) <= f64::EPSILON
}

fn order_floats(x: f64, y: f64) -> Order
    ensures { result ≡ by_float x y }
{
    if x.is_nan() || y.is_nan() {
        Order::Unordered
    } else if x.is_infinite() || y.is_infinite() {
        ieee(x, y)
    } else if are_close(x, y) {
        Order::Equal
    } else {
        ieee(x, y)
    }
}

pub fn compare_floats(x: f64, y: f64) -> Order
    ensures value { result ≡ by_float x y }
    ensures exact { Exact x y result }
    ensures divided { Divided x y }
    ensures agrees { Agrees x y result }
{
    order_floats(x, y)
}

// A float, as it is compared here. It can be compared, and has no total order.
#[derive(Clone, Copy)]
pub struct Float(pub f64);

impl Comparing for Float {
    ghost order = { λ x y. by_float x.0 y.0 };

    ghost exchange = { λ x y. floats_exchange x.0 y.0 };

    fn compare(&self, other: &Float) -> Order {
        compare_floats(self.0, other.0)
    }
}
