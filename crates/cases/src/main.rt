// Replays operator cases: each line is one call of APPLY or of its assigning form, and is answered with the value or the refusal.
#![tactic(auto)]

mod case;
mod judge;

use input::serve;
use judge::Judge;
use std::io;
use std::io::BufWriter;

// Two texts of 65,536 bytes as hexadecimal digits, and what stands around them.
const LONGEST: usize = 270000;

fn main(rt: HostRuntime) -> io::Result<()> {
    let mut out = BufWriter::new(rt.alloc(), rt.stdout())?;
    serve(
        &mut rt.stdin(),
        &mut [0u8; 65536],
        &mut [0u8; LONGEST],
        &mut Judge::new(),
        &mut out,
    )
}
