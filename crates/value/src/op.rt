// The nineteen binary operators, under the names of rhai's tokens. The first eleven also assign.
ghost use Rattle.std.specs.Prelude.{◌≡◌};
ghost use Rattle.std.specs.Option.{ok_or};
ghost use Rattle.std.specs.List.{slice_get};
ghost use Rattle.fault.specs.declared.Fault.TheVariants.{Unknown};
ghost use Rattle.value.specs.Ops.{op_number, ops};

use fault::Fault;

#[derive(Clone, Copy, PartialEq, Eq, Debug)]
pub enum Op {
    Plus,
    Minus,
    Multiply,
    Divide,
    Modulo,
    PowerOf,
    LeftShift,
    RightShift,
    Ampersand,
    Pipe,
    XOr,
    EqualsTo,
    NotEqualsTo,
    LessThan,
    LessThanEqualsTo,
    GreaterThan,
    GreaterThanEqualsTo,
    ExclusiveRange,
    InclusiveRange,
}

pub const OPS: [Op; 19] = [
    Op::Plus,
    Op::Minus,
    Op::Multiply,
    Op::Divide,
    Op::Modulo,
    Op::PowerOf,
    Op::LeftShift,
    Op::RightShift,
    Op::Ampersand,
    Op::Pipe,
    Op::XOr,
    Op::EqualsTo,
    Op::NotEqualsTo,
    Op::LessThan,
    Op::LessThanEqualsTo,
    Op::GreaterThan,
    Op::GreaterThanEqualsTo,
    Op::ExclusiveRange,
    Op::InclusiveRange,
];

impl From<Op> for u8 {
    ghost from_gives = { λ o n. n ≡ op_number o };

    fn from(op: Op) -> u8 {
        op as u8
    }
}

// The operator of a number, or a refusal where there is none.
impl TryFrom<u8> for Op {
    type Error = Fault;

    ghost try_from_gives = { λ n r. r ≡ ok_or (slice_get ops n) Unknown };

    fn try_from(number: u8) -> Result<Op, Fault> {
        OPS.get(number as usize).copied().ok_or(Fault::Unknown)
    }
}
