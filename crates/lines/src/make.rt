// Building the shelf, and the test before it.
ghost use Rattle.lines.specs.Tested.{Tested, Built};
ghost use Rattle.lines.specs.Shelved.{lines_slots};
ghost use Rattle.lines.specs.Once.{SpellsOnce};
ghost use Rattle.lines.specs.Kept.{KeepsWritten};

use crate::cutting::{count_lines, cut_line};
use crate::line::is_valued;
use crate::lines::Lines;
use fault::{Fault, Refusal};

// Whether the bytes are lines of a shelf.
pub fn test_lines(bytes: &[u8]) -> Result<(), Refusal>
    ensures { Tested bytes.now result }
{
    if !(1..=4096).contains(&count_lines(bytes)) {
        return Err(Refusal::from(Fault::BadLine));
    }
    let mut room = [0u8; 65536];
    let mut place = 0;
    let mut rest = bytes;
    while let Some(front) = cut_line(rest) {
        if !is_valued(front.line, &mut room) {
            return Err(Refusal {
                fault: Fault::BadLine,
                place,
            });
        }
        place += 1;
        rest = front.behind;
    }
    Ok(())
}

// A slot for each line; none where the test refuses.
pub fn new_lines(bytes: &[u8]) -> Lines
    ensures built { Built bytes.now (lines_slots result) }
    ensures once { SpellsOnce }
    ensures kept { KeepsWritten bytes.now (lines_slots result) }
{
    if test_lines(bytes).is_err() {
        return Lines { text: b"" };
    }
    Lines { text: bytes }
}
