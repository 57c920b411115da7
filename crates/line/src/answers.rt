// What a line is answered.
ghost use Rattle.std.specs.Prelude.{◌≡◌};
ghost use Rattle.desk.specs.Desks.{WithinWork, meant_by};
ghost use Rattle.show.specs.Shown.{shown_answer};
ghost use Rattle.line.specs.Answered.{shown_said};

use desk::Reply;
use fault::Refusal;
use show::{Answer, Shown};
use value::lend;

// The answer to print, with a text read in the work buffer.
pub fn answer_of(reply: Result<Reply, Refusal>, work: &[u8]) -> Answer<'_>
    requires { WithinWork work.now reply }
    ensures { shown_answer result ≡ shown_said (meant_by work.now reply) }
{
    Answer(reply.map(|reply| match reply {
        Reply::Value(value) => Some(Shown(lend(value, work))),
        _ => None,
    }))
}
