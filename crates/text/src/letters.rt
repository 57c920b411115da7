// UTF-8, and the order of texts by their Unicode scalars.
ghost use Rattle.std.specs.Prelude.{◌≡◌, [], ◌∷◌};
ghost use Rattle.std.specs.Str.{chars};
ghost use Rattle.order.specs.Orders.{by_sequence, by_nat};
ghost use Rattle.text.specs.Scalars.{utf8, by_scalars, first_two, BytesOrderAsScalars, TwoScalarsSuffice, WorkedLetters};

use order::{Order, compare_sequences};
use std::str::from_utf8;

pub fn is_utf8(bytes: &[u8]) -> bool
    ensures { result ≡ utf8 bytes.now }
{
    from_utf8(bytes).is_ok()
}

// Two strs, by their bytes. (By the one order of sequences, as the project asks, and not by the library's `cmp`.)
pub fn compare_texts(a: &str, b: &str) -> Order
    ensures { result ≡ by_scalars (chars a.now) (chars b.now) }
{
    compare_sequences(a.as_bytes(), b.as_bytes())
}

// The first two scalars of a text, absent where it has fewer.
fn first_two(text: &str) -> [Option<char>; 2]
    ensures { result ≡ first_two (chars text.now) }
{
    let mut y = text.chars();
    [y.next(), y.next()]
}

// A char and a str as two pairs of optional scalars: two tell what they are to each other.
pub fn get_s1s2(c: char, text: &str) -> ([Option<char>; 2], [Option<char>; 2])
    ensures char { result.0 ≡ first_two (c ∷ []) }
    ensures text { result.1 ≡ first_two (chars text.now) }
{
    ([Some(c), None], first_two(text))
}

pub fn compare_char_text(c: char, text: &str) -> Order
    ensures { result ≡ by_scalars (c ∷ []) (chars text.now) }
{
    let (s1, s2) = get_s1s2(c, text);
    compare_sequences(&s1, &s2)
}

pub fn compare_text_char(text: &str, c: char) -> Order
    ensures { result ≡ by_scalars (chars text.now) (c ∷ []) }
{
    compare_char_text(c, text).reverse()
}

// The laws of text order.
pub fn letters_stand() -> u8
    ensures bytes { BytesOrderAsScalars }
    ensures pairs { TwoScalarsSuffice }
    ensures worked { WorkedLetters }
{
    0
}
