// Worked examples of floats, proved by computing the definitions.
ghost use Rattle.float.specs.Worked.{Worked};

pub fn worked_floats() -> u8
    ensures { Worked }
{
    0
}
