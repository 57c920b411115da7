// One text of two operands, by the rule that says when its size is tested and when an operand is given back.
ghost use Rattle.std.specs.Prelude.{◌≡◌};
ghost use Rattle.text.specs.Pieces.{piece_bytes, Below};
ghost use Rattle.routines.specs.Calls.{of, as_bytes, joined_by, choice};
ghost use Rattle.routines.specs.Outcomes.{operand, Ready, Settles};
ghost use Rattle.routines.specs.Works.{Kept};

use crate::made::{Choice, Limits, Made, Operand, TextKind, TextRule, is_allowed};
use crate::texts::{as_pieces, new_text};
use crate::work::Work;
use fault::Fault;
use text::{Piece, piece_len};

// What becomes of texts of m and n bytes.
fn choose(rule: TextRule, limits: Limits, m: usize, n: usize) -> Result<Choice, Fault>
    ensures { result ≡ choice limits rule m n }
{
    let (kind, limit) = match rule {
        TextRule::Both(kind) => (kind, kind.limit(limits)),
        TextRule::ExtendBlob if n == 0 && !is_allowed(limits.blob, m, 0) => {
            return Err(Fault::OverLimit);
        }
        _ if n == 0 => return Ok(Choice::Left),
        TextRule::JoinBlobs if m == 0 => return Ok(Choice::Right),
        TextRule::Append(kind) => (kind, kind.limit(limits)),
        TextRule::ExtendStr => (TextKind::Str, if m == 0 { 0 } else { limits.string }),
        TextRule::JoinBlobs | TextRule::ExtendBlob => (TextKind::Blob, limits.blob),
    };
    Ok(Choice::Join { kind, limit })
}

fn join_pieces(rule: TextRule, work: &mut Work, p: Piece, q: Piece) -> Result<Made, Fault>
    requires left { Below work.old.fill p }
    requires right { Below work.old.fill q }
    ensures settles { Settles work.old.bytes.now work.old.fill (joined_by work.old.limits rule (piece_bytes work.old.bytes.now p.entry) (piece_bytes work.old.bytes.now q.entry)) result work.new.bytes.now work.new.fill }
    ensures kept { Kept work.old work.new }
{
    let bytes = &mut *work.bytes;
    let m = piece_len(bytes, p);
    let n = piece_len(bytes, q);
    match choose(rule, work.limits, m, n)? {
        Choice::Left => Ok(Made::Left),
        Choice::Right => Ok(Made::Right),
        Choice::Join { kind, limit } => {
            if !is_allowed(limit, m, n) {
                return Err(Fault::OverLimit);
            }
            new_text(kind, work, p, q)
        }
    }
}

pub(crate) fn concat(rule: TextRule, a: Operand, b: Operand, work: &mut Work) -> Result<Made, Fault>
    requires left { Ready work.old.bytes.now work.old.fill a }
    requires right { Ready work.old.bytes.now work.old.fill b }
    ensures settles { Settles work.old.bytes.now work.old.fill (of as_bytes (operand work.old.bytes.now a.entry) (operand work.old.bytes.now b.entry) (joined_by work.old.limits rule)) result work.new.bytes.now work.new.fill }
    ensures kept { Kept work.old work.new }
{
    let (p, q) = as_pieces(a, b)?;
    join_pieces(rule, work, p, q)
}
