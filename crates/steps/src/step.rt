// A step of a rule.
ghost use Rattle.std.specs.Prelude.{◌≡◌};
ghost use Rattle.steps.specs.Steps.{takes};

use fault::Fault;
use text::Span;
use value::{Op, Value};

// A walk has a stack and eight locals. The upper operand on the stack is the right one.
#[derive(Clone, Copy)]
pub enum Step {
    // puts a literal on the stack
    Put(Value<Span>),
    // puts the value of a slot of the shelf on the stack
    Slot(u32),
    // puts the value of a local on the stack
    Local(u8),
    // takes the top off the stack and keeps it in a local
    Keep(u8),
    // takes two values off the stack and puts the operator's value on it
    Apply(Op),
    // takes the top off the stack and assigns by the operator to a local
    Assign { op: Op, local: u8 },
}

// The unit as a literal, in the unused places of a rule. (By hand: a derive takes a case without fields only.)
impl Default for Step {
    ghost use Rattle.value.specs.declared.value.Value.TheVariants.{Unit as Nothing};
    ghost use Rattle.steps.specs.declared.step.Step.TheVariants.{Put};

    ghost is_default = { λ s. s ≡ Put Nothing };

    fn default() -> Step {
        Step::Put(Value::Unit)
    }
}

impl Step {
    // Whether a rule takes the step: a local is below 8, and a literal is of one of the first five kinds.
    pub fn test(self) -> Result<(), Fault>
        ensures { result ≡ takes self }
    {
        match self {
            Step::Put(value) => match value {
                Value::Unit | Value::Bool(_) | Value::Int(_) | Value::Float(_) | Value::Char(_) =>
                    Ok(()),
                _ => Err(Fault::Malformed),
            },
            Step::Local(local) | Step::Keep(local) | Step::Assign { op: _, local } => {
                if local < 8 {
                    Ok(())
                } else {
                    Err(Fault::Unknown)
                }
            }
            Step::Slot(_) | Step::Apply(_) => Ok(()),
        }
    }
}
