// Hexadecimal digits, lower case.
ghost use Rattle.std.specs.Prelude.{◌≡◌, ℕ, ◌^◌, ◌<◌, ◌≤◌, List, length, take, drop, MatchOption, ◌≢◌};
ghost use Rattle.format.specs.Written.{figure, figures, pairs};
ghost use Rattle.format.specs.Reading.{Reads, ReadsAs, Bytes};

// Not `char::to_digit`, which takes upper case too.
fn hex_digit(b: u8) -> Option<u8>
    ensures { MatchOption result ((d : ℕ) → d < 16 → figure d ≢ b) (λ d. (d < 16) × (figure d ≡ b)) }
{
    match b {
        b'0'..=b'9' => Some(b - b'0'),
        b'a'..=b'f' => Some(b - b'a' + 10),
        _ => None,
    }
}

pub fn read_bits(bytes: &[u8]) -> Option<u64>
    ensures reads { Reads (λ n. n < 2 ^ 64) (figures 16) bytes.now result }
    ensures exact { ReadsAs (λ n. n < 2 ^ 64) (figures 16) bytes.now result }
{
    if bytes.len() != 16 {
        return None;
    }
    let mut n: u64 = 0;
    for b in bytes {
        n = n * 16 + u64::from(hex_digit(*b)?);
    }
    Some(n)
}

// Reads two digits for each byte into the front of `out`. Where it refuses, `out` may have changed.
pub fn read_pairs(bytes: &[u8], out: &mut [u8]) -> Option<usize>
    ensures { MatchOption result ((vs : List ℕ) → Bytes vs → length vs ≤ length out.old → pairs vs ≢ bytes.now) (λ n. (n ≤ length out.new) × (pairs (take n out.new) ≡ bytes.now) × (drop n out.new ≡ drop n out.old)) }
{
    let (digits, []) = bytes.as_chunks::<2>() else {
        return None;
    };
    if digits.len() > out.len() {
        return None;
    }
    // By index: through a `zip` with `out.iter_mut()`, what a refusal leaves in `out` has no name in a proof.
    for (i, [high, low]) in digits.iter().enumerate() {
        out[i] = hex_digit(*high)? * 16 + hex_digit(*low)?;
    }
    Some(digits.len())
}
