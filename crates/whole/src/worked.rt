// Worked examples of whole numbers, proved by computing the definitions.
ghost use Rattle.whole.specs.Worked.{Worked};

pub fn worked_pairs() -> u8
    ensures { Worked }
{
    0
}
