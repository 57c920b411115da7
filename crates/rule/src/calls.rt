// The calls on a rule.
ghost use Rattle.std.specs.Prelude.{◌≡◌, length, take};
ghost use Rattle.shelf.specs.Slots.{holding};
ghost use Rattle.rule.specs.Run.{Ends};
ghost use Rattle.rule.specs.Rules.{blank, rule_of, adds, added, checks, passed, ran};

use crate::checking::{check_steps, is_fresh, kinds_at};
use crate::rule::{Rule, State};
use crate::running::run_steps;
use fault::{Fault, Refusal};
use routines::Limits;
use shelf::Shelf;
use steps::{Step, Taken};
use text::Span;
use value::{KindSet, Value};

impl Rule {
    // Open and empty.
    pub fn new() -> Self
        ensures { rule_of result ≡ blank }
    {
        Rule {
            steps: [Step::Put(Value::Unit); 128],
            count: 0,
            state: State::Open,
        }
    }

    pub fn clear(&mut self)
        ensures { rule_of self.new ≡ blank }
    {
        self.count = 0;
        self.state = State::Open;
    }

    pub fn add(&mut self, step: Step) -> Result<(), Fault>
        ensures answer { result ≡ adds (rule_of self.old) step }
        ensures after { rule_of self.new ≡ added (rule_of self.old) step }
    {
        step.test()?;
        match self.state {
            State::Passed { .. } => Err(Fault::RulePassed),
            State::Open => {
                if self.count >= 128 {
                    return Err(Fault::RuleFull);
                }
                self.steps[self.count] = step;
                self.count += 1;
                Ok(())
            }
        }
    }

    fn taken(&self) -> Taken<'_>
        ensures list { result.list.now ≡ take self.now.count self.now.steps }
        ensures count { length result.list.now ≡ self.now.count }
    {
        Taken {
            list: &self.steps[..self.count],
        }
    }

    // The kinds that the answer can have.
    pub fn check<S: Shelf>(&mut self, shelf: &S) -> Result<KindSet, Refusal>
        ensures answer { result ≡ checks (holding (S.slots shelf.now)) (rule_of self.old) }
        ensures after { rule_of self.new ≡ passed (holding (S.slots shelf.now)) (rule_of self.old) }
    {
        let steps = self.taken();
        let answer = check_steps(steps, shelf)?;
        let kinds = kinds_at(steps.list, shelf);
        self.state = State::Passed { kinds, answer };
        Ok(answer)
    }

    pub fn run<S: Shelf>(
        &self,
        shelf: &mut S,
        limits: Limits,
        work: &mut [u8],
    ) -> Result<Value<Span>, Refusal>
        ensures ends { Ends (ran limits (holding (S.slots shelf.old)) (rule_of self.now).steps (rule_of self.now).kept work.old) result work.new }
        ensures same { S.slots shelf.new ≡ S.slots shelf.old }
    {
        match &self.state {
            State::Open => Err(Fault::NotPassed.into()),
            State::Passed { kinds, .. } => {
                let steps = self.taken();
                if !is_fresh(steps.list, &kinds[..self.count], shelf) {
                    return Err(Fault::Outdated.into());
                }
                run_steps(steps, shelf, limits, work)
            }
        }
    }
}
