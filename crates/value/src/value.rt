// A value of one of the nine kinds. Where its text is, if it has one, is up to `T`: a part of a buffer, or lent bytes.
ghost use Rattle.std.specs.Prelude.{◌≡◌};
ghost use Rattle.value.specs.Values.{kind_of, text_in, TextMeets, Maps};

use crate::kind::Kind;

// Two ends, as they were given.
#[derive(Clone, Copy, PartialEq, Eq, Debug)]
pub struct Range {
    pub from: i64,
    pub to: i64,
}

#[derive(Clone, Copy, Default)]
pub enum Value<T> {
    #[default]
    Unit,
    Bool(bool),
    Int(i64),
    Float(f64),
    Char(char),
    Str(T),
    Blob(T),
    Excl(Range),
    Incl(Range),
}

impl<T: Copy> Value<T> {
    pub fn kind(self) -> Kind
        ensures { result ≡ kind_of self }
    {
        match self {
            Value::Unit => Kind::Unit,
            Value::Bool(_) => Kind::Bool,
            Value::Int(_) => Kind::Int,
            Value::Float(_) => Kind::Float,
            Value::Char(_) => Kind::Char,
            Value::Str(_) => Kind::Str,
            Value::Blob(_) => Kind::Blob,
            Value::Excl(_) => Kind::Excl,
            Value::Incl(_) => Kind::Incl,
        }
    }

    pub fn text(self) -> Option<T>
        ensures { result ≡ text_in self }
    {
        match self {
            Value::Str(t) | Value::Blob(t) => Some(t),
            _ => None,
        }
    }

    // The same value, with what `f` makes of its text in the place of that.
    pub fn map<U: Copy, F: FnOnce(T) -> U>(self, f: F) -> Value<U>
        requires { TextMeets (F.pre f) self }
        ensures { Maps (F.post f) self result }
    {
        match self {
            Value::Unit => Value::Unit,
            Value::Bool(b) => Value::Bool(b),
            Value::Int(n) => Value::Int(n),
            Value::Float(x) => Value::Float(x),
            Value::Char(c) => Value::Char(c),
            Value::Str(t) => Value::Str(f(t)),
            Value::Blob(t) => Value::Blob(f(t)),
            Value::Excl(r) => Value::Excl(r),
            Value::Incl(r) => Value::Incl(r),
        }
    }
}
