// What an operator gives, and the limits on the size of new texts.
ghost use Rattle.std.specs.Prelude.{◌≡◌, ◌+◌};
ghost use Rattle.routines.specs.Calls.{allowed, limit_for};
ghost use Rattle.routines.specs.Outcomes.{valued};

use text::{Span, Text};
use value::Value;

// A value whose text is a part of the work buffer, or lent.
pub type Operand<'a> = Value<Text<'a>>;

// An operand is given back, or there is a new value, whose text is in the work buffer.
#[derive(Clone, Copy)]
pub enum Made {
    Left,
    Right,
    New(Value<Span>),
}

// Which kind a new text has.
#[derive(Clone, Copy)]
pub enum TextKind {
    Str,
    Blob,
}

impl TextKind {
    pub(crate) fn limit(self, limits: Limits) -> usize
        ensures { result ≡ limit_for self limits }
    {
        match self {
            TextKind::Str => limits.string,
            TextKind::Blob => limits.blob,
        }
    }

    pub(crate) fn value(self, span: Span) -> Value<Span>
        ensures { result ≡ valued self span }
    {
        match self {
            TextKind::Str => Value::Str(span),
            TextKind::Blob => Value::Blob(span),
        }
    }
}

// How two operands become one text: what a routine asks of `concat`. (An enum and no closure: `joined_by` states each rule by its
// name, and a closure for each would need a contract of its own that says the same.)
#[derive(Clone, Copy)]
pub enum TextRule {
    // both, tested against the limit
    Both(TextKind),
    // the left one where the right is empty, else both, tested
    Append(TextKind),
    // one where the other is empty, the left if both are, else both, tested
    JoinBlobs,
    // the left one where the right is empty, else both, tested where the left is not empty
    ExtendStr,
    // both, tested, and the left one where the right is empty
    ExtendBlob,
}

// What becomes of two texts: one of them is given back, or they are joined within a limit.
#[derive(Clone, Copy)]
pub enum Choice {
    Left,
    Right,
    Join { kind: TextKind, limit: usize },
}

// The most bytes that a new str or a new blob may have; 0 is no limit, as it is in rhai's own settings.
#[derive(Clone, Copy, PartialEq, Eq, Debug)]
pub struct Limits {
    pub string: usize,
    pub blob: usize,
}

// Whether two pieces of these sizes are together within the limit.
pub(crate) fn is_allowed(limit: usize, m: usize, n: usize) -> bool
    ensures { result ≡ allowed limit (m + n) }
{
    limit == 0 || (m <= limit && n <= limit - m)
}
