// A rule of 21 steps over a table, run again and again.
use crate::tasks::NONE;
use rule::Rule;
use shelf::Shelf;
use steps::Step;
use table::{Record, new_table};
use value::{Op, Value};

// Slot 0 and the numbers from 0 to 9, added up.
fn write_rule(rule: &mut Rule) {
    let _ = rule.add(Step::Slot(0));
    for i in 0..10 {
        let _ = rule.add(Step::Put(Value::Int(i)));
        let _ = rule.add(Step::Apply(Op::Plus));
    }
}

fn margin<'a>() -> Value<&'a [u8]> {
    Value::Int(25)
}

pub(crate) fn repeat(count: u32, work: &mut [u8]) -> u64 {
    let mut records = [Record { value: Value::Unit }; 2];
    let mut texts = [0u8; 32];
    let mut table = new_table(&mut records, &mut texts, 16);
    let _ = table.post(0, margin());
    let mut rule = Rule::new();
    write_rule(&mut rule);
    let _ = rule.check(&table);
    let mut sum = 0u64;
    for _ in 0..count {
        if let Ok(Value::Int(n)) = rule.run(&mut table, NONE, work) {
            sum = sum.wrapping_add(n.unsigned_abs());
        }
    }
    sum
}
