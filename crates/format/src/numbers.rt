// Whole numbers, in shortest decimals.
ghost use Rattle.std.specs.Prelude.{◌≡◌, ◌^◌, ◌<◌, decimal, Decides, FitsSigned};
ghost use Rattle.std.specs.Int.{w64};
ghost use Rattle.std.specs.Fmt.{signed_decimal};
ghost use Rattle.format.specs.Reading.{Reads, ReadsAs, Short, ParsesShort};

use std::str::{FromStr, from_utf8};

// No plus, and no zero in front of a digit or behind a minus.
fn is_short(bytes: &[u8]) -> bool
    ensures { Decides result (Short bytes.now) }
{
    !matches!(bytes, [b'+', ..] | [b'0', _, ..] | [b'-', b'0', ..])
}

// A number of any type, written in shortest decimals.
fn read<T: FromStr>(bytes: &[u8]) -> Option<T>
where
    T::Err: Drop,
    ensures { ParsesShort T.from_str_gives bytes.now result }
{
    if !is_short(bytes) {
        return None;
    }
    from_utf8(bytes).ok()?.parse().ok()
}

pub fn read_int(bytes: &[u8]) -> Option<i64>
    ensures reads { Reads (FitsSigned w64) signed_decimal bytes.now result }
    ensures exact { ReadsAs (FitsSigned w64) signed_decimal bytes.now result }
{
    read(bytes)
}

pub fn read_slot(bytes: &[u8]) -> Option<u32>
    ensures reads { Reads (λ n. n < 2 ^ 32) decimal bytes.now result }
    ensures exact { ReadsAs (λ n. n < 2 ^ 32) decimal bytes.now result }
{
    read(bytes)
}

// A local, 0 to 7.
pub fn read_local(bytes: &[u8]) -> Option<u8>
    ensures reads { Reads (λ n. n < 8) decimal bytes.now result }
    ensures exact { ReadsAs (λ n. n < 8) decimal bytes.now result }
{
    read(bytes).filter(|n| *n < 8)
}
