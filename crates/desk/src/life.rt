// A desk from its making to its end.
ghost use Rattle.std.specs.Prelude.{◌≡◌, min, [], length, take, drop};
ghost use Rattle.desk.specs.Desks.{events, AllLawful};

use crate::call::{Call, Reply};
use crate::desk::Desk;
use fault::Refusal;
use shelf::Shelf;

// Serves the calls in their order, as many as there are places for their answers.
pub fn session<S: Shelf + Drop>(
    shelf: S,
    calls: &[Call],
    work: &mut [u8],
    answers: &mut [Result<Reply, Refusal>],
) -> usize
    ensures count { result ≡ min (length calls.now) (length answers.old) }
    ensures lawful { AllLawful (S.slots shelf) [] (events (take result calls.now)) (take result answers.new) work.old work.new }
    ensures rest { drop result answers.new ≡ drop result answers.old }
{
    let mut desk = Desk::new(shelf);
    let count = calls.len().min(answers.len());
    // answers by index: of a zip with iter_mut, a proof knows no element afterwards
    for (i, call) in calls[..count].iter().enumerate() {
        answers[i] = desk.serve(*call, work);
    }
    count
}
