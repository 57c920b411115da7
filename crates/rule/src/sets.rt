// Operators on sets of kinds, for a check.
ghost use Rattle.std.specs.Prelude.{◌≡◌, Result};
ghost use Rattle.fault.specs.declared.Fault.{Fault as Reason};
ghost use Rattle.value.specs.Kinds.{set, kinds};
ghost use Rattle.value.specs.declared.kind.Kind.{Kind as OneKind};
ghost use Rattle.value.specs.declared.set.KindSet.{KindSet as Kinds};
ghost use Rattle.rows.specs.Rows.{selected_by};
ghost use Rattle.rule.specs.Sets.{gather, rows_over};

use fault::Fault;
use rows::{Routine, select};
use value::kind::KINDS;
use value::{Kind, KindSet, Op};

// The union of what `f` gives for each kind of the set, or its first refusal.
fn gather<F: Fn(Kind) -> Result<KindSet, Fault>>(of: KindSet, f: F) -> Result<KindSet, Fault>
    requires { F.IsAlwaysCallable f }
    ensures { (gives : OneKind → Result Kinds Reason) → ((k : OneKind) (r : Result Kinds Reason) → F.post f k r → r ≡ gives k) → result ≡ gather gives of (set 0) kinds }
{
    let mut all = KindSet::default();
    for kind in KINDS {
        if of.has(kind) {
            all = all.union(f(kind)?);
        }
    }
    Ok(all)
}

// The union of what the operator can give for a kind of each set, which takes a row for every pair.
pub(crate) fn select_sets<R: Routine>(
    op: Op,
    left: KindSet,
    right: KindSet,
) -> Result<KindSet, Fault>
    ensures { result ≡ rows_over (selected_by R.finds R.gives op) left right }
{
    gather(left, |a| gather(right, |b| select::<R>(op, a, b)))
}
