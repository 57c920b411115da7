// A rule: up to 128 steps, open to more of them or passed by a check.
ghost use Rattle.std.specs.Prelude.{◌≡◌, ◌≤◌, true, length, take};
ghost use Rattle.steps.specs.Steps.{all_taken};

use steps::Step;
use value::{Kind, KindSet};

// A passed rule keeps the kind of each slot that it loads, at the place of its step, and the kinds that its answer can have. (An enum
// and no Option: the project asks that a rule matches its own state, open or passed, by these names.)
#[derive(Clone, Copy)]
pub enum State {
    Open,
    Passed {
        kinds: [Option<Kind>; 128],
        answer: KindSet,
    },
}

// The steps are the first `count`, and the kinds of a passed rule as many. (Arrays with a count, and no array vectors: these were
// tried. A state of theirs is no `Copy`, and to clear a rule writes over each of its steps, where a count is set here.)
#[derive(Drop)]
pub struct Rule {
    pub steps: [Step; 128],
    pub count: usize,
    pub state: State,
    ghost few: { count ≤ 128 },
    ghost size: { length steps ≡ 128 },
    ghost taken: { all_taken (take count steps) ≡ true },
}
