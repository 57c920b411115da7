// The work buffer of a call.
ghost use Rattle.std.specs.Prelude.{◌≤◌, length};

use crate::made::Limits;

// The work buffer, whose first `fill` bytes have texts; a new text goes behind them, within the limits. What is asked of an
// operand beside it stays a clause of each call: it speaks of bytes that the same call writes. The bytes are lent, and may be as
// many as the caller has; a constructor that took a part of them would lose the others from sight. That a call keeps the limits, and
// the buffer the same one (`Kept`), stays a clause too: a type says nothing of what a call does with a borrowed field.
#[derive(Drop)]
pub struct Work<'a> {
    pub limits: Limits,
    pub bytes: &'a mut [u8],
    pub fill: usize,
    pub ghost inside: { fill ≤ length bytes.now },
}
