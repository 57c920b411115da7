// Shifts by any count. A negative count turns one shift into the other, so that they call each other.
ghost use Rattle.std.specs.Prelude.{◌≡◌, ◌-◌, ◌^◌, min, pos, ◌*ℤ◌, unsigned_abs};
ghost use Rattle.std.specs.Int.Signed.{shr_z};
ghost use Rattle.std.specs.Int.{int_wrap, w64};
ghost use Rattle.whole.specs.Whole.{shifted_left, shifted_right};

// The magnitude of a count, the least int counting as the greatest.
fn magnitude(y: i64) -> i64
    ensures { result ≡ pos (min (unsigned_abs y) (2 ^ 63 - 1)) }
{
    y.checked_abs().unwrap_or(i64::MAX)
}

fn left_by(x: i64, n: u32) -> i64
    ensures { result ≡ int_wrap w64 (x *ℤ pos (2 ^ n)) }
{
    x.checked_shl(n).unwrap_or(0)
}

fn right_by(x: i64, n: u32) -> i64
    ensures { result ≡ shr_z x (2 ^ n) }
{
    x.checked_shr(n).unwrap_or(x.wrapping_shr(u32::MAX))
}

#[cycle(shift_left_shift_right)]
pub fn shift_left(x: i64, y: i64) -> i64
    ensures { result ≡ shifted_left x y }
{
    if y > u32::MAX as i64 {
        0
    } else if y < 0 {
        shift_right(x, magnitude(y))
    } else {
        left_by(x, y as u32)
    }
}

#[cycle(shift_left_shift_right)]
pub fn shift_right(x: i64, y: i64) -> i64
    ensures { result ≡ shifted_right x y }
{
    if y > u32::MAX as i64 {
        x.wrapping_shr(u32::MAX)
    } else if y < 0 {
        shift_left(x, magnitude(y))
    } else {
        right_by(x, y as u32)
    }
}
