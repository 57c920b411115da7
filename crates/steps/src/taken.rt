// Steps of a rule, each of which it takes.
ghost use Rattle.std.specs.Prelude.{◌≡◌, true};
ghost use Rattle.steps.specs.Steps.{all_taken};

use crate::step::Step;

#[derive(Clone, Copy)]
pub struct Taken<'a> {
    pub list: &'a [Step],
    pub ghost taken: { all_taken list.now ≡ true },
}
