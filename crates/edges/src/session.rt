// A whole list of calls at once, from the making of the shelf.
use desk::{Call, Reply, session};
use fault::{Fault, Refusal};
use routines::Limits;
use std::test::Fail;
use steps::Step;
use table::{Record, new_table};
use value::{Op, Value};

// A run over the string limit is refused at its step, and leaves the texts that were told before.
#[test]
fn run_over_limit(rt: HostRuntime) -> Result<(), Fail> {
    let mut records = [Record { value: Value::Unit }; 2];
    let mut texts = [0u8; 8];
    let shelf = new_table(&mut records, &mut texts, 4);
    let calls = [
        Call::Post {
            slot: 0,
            value: Value::Str(b"ab"),
        },
        Call::Post {
            slot: 1,
            value: Value::Str(b"cd"),
        },
        Call::Add(Step::Slot(0)),
        Call::Add(Step::Slot(1)),
        Call::Add(Step::Apply(Op::Plus)),
        Call::Check,
        Call::Run(Limits { string: 3, blob: 0 }),
    ];
    let mut work = [7u8; 8];
    let mut answers = [Ok(Reply::Done); 7];
    session(shelf, &calls, &mut work, &mut answers);
    assert_eq!(rt; work, [b'a', b'b', b'c', b'd', 7, 7, 7, 7]);
    match answers[6] {
        Err(refusal) => {
            assert_eq!(rt;
                refusal,
                Refusal {
                    fault: Fault::OverLimit,
                    place: 2,
                }
            );
            Ok(())
        },
        Ok(_) => Err(Fail::new("the run was not refused")),
    }
}
