// What a walk works with: what its entries are, and what a literal, a slot and an operator come to.
ghost use Rattle.std.specs.Prelude.{◌≡◌, ℕ, [], Ok, OnErr};
ghost use Rattle.fault.specs.Refusals.{bind};
ghost use Rattle.value.specs.Values.{meant, kind_of};
ghost use Rattle.steps.specs.Steps.{takes_literal};
ghost use Rattle.steps.specs.Walk.{Machine as Defined};
ghost use Rattle.steps.specs.Machines.{Comes, Keeps};

use fault::Fault;
use text::Span;
use value::{Op, Value};

pub trait Machine {
    // what stands on the stack and in the locals
    type Entry: Copy;

    // what calls change beside the entries, and what an entry means
    ghost World: { Type 0 };

    ghost Meant: { Type 0 };

    // the machine of the definitions, its world, and what each entry means
    ghost does: { Self → Defined World Meant };

    ghost world: { Self → World };

    ghost means: { Self → Self.Entry → Meant };

    // whether an entry came of this machine
    ghost holds: { Self → Self.Entry → Type 0 };

    // whether calls lead from the first state to the second
    ghost later: { Self → Self → Type 0 };

    // A literal means the same in every world.
    fn put(&self, literal: Value<Span>) -> Self::Entry
        requires { takes_literal (kind_of literal) ≡ Ok tt }
        ensures means { means self.now result ≡ (does self.now).put (meant [] literal) }
        ensures held { holds self.now result };

    fn load(&mut self, slot: u32) -> Result<Self::Entry, Fault>
        ensures comes { Comes (means self.new) (holds self.new) (world self.new) ((does self.old).load slot (world self.old)) result }
        ensures later { later self.old self.new };

    fn apply(&mut self, op: Op, left: Self::Entry, right: Self::Entry) -> Result<Self::Entry, Fault>
        requires left { holds self.old left }
        requires right { holds self.old right }
        ensures comes { Comes (means self.new) (holds self.new) (world self.new) ((does self.old).apply op (means self.old left) (means self.old right) (world self.old)) result }
        ensures later { later self.old self.new };

    // Assigns to the local in place; a refusal leaves it.
    fn assign(&mut self, op: Op, local: &mut Self::Entry, right: Self::Entry) -> Result<(), Fault>
        requires left { holds self.old local.old }
        requires right { holds self.old right }
        ensures comes { Comes (means self.new) (holds self.new) (world self.new) ((does self.old).assign op (means self.old local.old) (means self.old right) (world self.old)) (bind result (λ _. Ok local.new)) }
        ensures left { OnErr result (local.new ≡ local.old) }
        ensures later { later self.old self.new };

    // each state comes of itself, calls lead on, and what is later keeps every entry
    ghost at_once: { (a : Self) → later a a };

    ghost leads_on: { (a b c : Self) → later a b → later b c → later a c };

    ghost keeps: { (a b : Self) → later a b → Keeps (does a) (does b) (means a) (means b) (holds a) (holds b) };
}
