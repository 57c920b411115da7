// A check: the walk over sets of kinds, and the kinds at the loads.
ghost use Rattle.std.specs.Prelude.{◌≡◌, ◌≤◌, length, take};
ghost use Rattle.shelf.specs.Slots.{holding};
ghost use Rattle.rule.specs.Check.{sets, checked, kind_at, kinds_at, fresh};

use crate::sets::select_sets;
use fault::{Fault, Refusal};
use operators::{FnAssign, FnBuiltin};
use shelf::Shelf;
use steps::{Machine, Step, Taken, walk};
use text::Span;
use value::{Kind, KindSet, Op, Value};

// The machine of a check: a slot has the kind of its value now.
#[derive(Drop)]
struct Sets<'a, S> {
    shelf: &'a S,
}

impl<S: Shelf> Machine for Sets<'_, S> {
    ghost use Rattle.std.proofs.Common.{refl, ◌∙◌};
    ghost use Rattle.value.specs.declared.set.KindSet.{KindSet as Kinds};

    type Entry = KindSet;

    ghost World = { Unit {0} };

    ghost Meant = { Kinds };

    ghost does = { λ m. sets (holding (S.slots m.shelf.now)) };

    ghost world = { λ m. tt };

    ghost means = { λ m kinds. kinds };

    ghost holds = { λ m kinds. Unit {0} };

    ghost later = { λ a b. S.slots b.shelf.now ≡ S.slots a.shelf.now };

    ghost at_once = { λ a. refl };

    ghost leads_on = { λ a b c p q. q ∙ p };

    ghost keeps = { λ a b p. record { machine = λ i. sets (holding (p i)); meant = λ x h. refl; held = λ x h. tt } };

    fn put(&self, literal: Value<Span>) -> KindSet {
        KindSet::single(literal.kind())
    }

    fn load(&mut self, slot: u32) -> Result<KindSet, Fault> {
        self.shelf.kind(slot).map(KindSet::single)
    }

    fn apply(&mut self, op: Op, left: KindSet, right: KindSet) -> Result<KindSet, Fault> {
        select_sets::<FnBuiltin>(op, left, right)
    }

    fn assign(&mut self, op: Op, local: &mut KindSet, right: KindSet) -> Result<(), Fault> {
        *local = select_sets::<FnAssign>(op, *local, right)?;
        Ok(())
    }
}

// CHECK's answer: the set of kinds that the last value can have.
pub(crate) fn check_steps<S: Shelf>(steps: Taken, shelf: &S) -> Result<KindSet, Refusal>
    ensures { result ≡ checked (holding (S.slots shelf.now)) steps.entry.list.now }
{
    walk(steps, &mut Sets { shelf })
}

// The kind now of the slot that a step loads.
fn kind_at<S: Shelf>(step: Step, shelf: &S) -> Option<Kind>
    ensures { result ≡ kind_at (holding (S.slots shelf.now)) step }
{
    match step {
        Step::Slot(slot) => shelf.kind(slot).ok(),
        _ => None,
    }
}

pub(crate) fn kinds_at<S: Shelf>(steps: &[Step], shelf: &S) -> [Option<Kind>; 128]
    requires { length steps.now ≤ 128 }
    ensures { take (length steps.now) result ≡ kinds_at (holding (S.slots shelf.now)) steps.now }
{
    let mut kinds = [None; 128];
    for (i, step) in steps.iter().enumerate() {
        kinds[i] = kind_at(*step, shelf);
    }
    kinds
}

// Whether every load finds the kind that was kept of it.
pub(crate) fn is_fresh<S: Shelf>(steps: &[Step], kinds: &[Option<Kind>], shelf: &S) -> bool
    requires { length kinds.now ≡ length steps.now }
    ensures { result ≡ fresh (holding (S.slots shelf.now)) steps.now kinds.now }
{
    steps
        .iter()
        .zip(kinds)
        .all(|(step, kind)| kind_at(*step, shelf) == *kind)
}
