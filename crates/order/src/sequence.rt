// The order of sequences: the first difference decides, and a proper beginning comes first. (One for every totally ordered element, as
// the project asks, the pairs of optional chars among them; the library's `Ord` of slices is over its own trait.)
ghost use Rattle.std.specs.Prelude.{◌≡◌};
ghost use Rattle.order.specs.Orders.{by_sequence};

use crate::traits::{Order, TotalOrder};

pub fn compare_sequences<T: TotalOrder>(a: &[T], b: &[T]) -> Order
    ensures { result ≡ by_sequence T.TotalOrder.total a.now b.now }
{
    for (x, y) in a.iter().zip(b.iter()) {
        match x.total_compare(y) {
            Order::Equal => {}
            decided => return decided,
        }
    }
    a.len().cmp(&b.len()).into()
}
