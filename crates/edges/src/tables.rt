// Building a table: what the test before it refuses, and that a table of what it refuses has no slots.
use crate::shelves::{LAST, is_absent};
use fault::Fault;
use shelf::Shelf;
use std::process::Abort;
use table::{Record, new_table, test_table};
use value::{Kind, Value};

// What the records hold before; none of it is told.
const OLD: Record = Record {
    value: Value::Int(5),
};

#[test]
fn test_before_building(rt: HostRuntime) {
    let bad_count = Err(Fault::BadLine);
    let over = Err(Fault::OverCapacity);
    let short = Err(Fault::BufferShort);
    for (count, capacity, bytes, answer) in [
        (0, 0, 0, bad_count),
        (1, 0, 0, Ok(())),
        (4096, 0, 0, Ok(())),
        (4097, 0, 0, bad_count),
        (1, 4096, 4096, Ok(())),
        (1, 4097, 4097, over),
        (3, 8, 25, Ok(())),
        (3, 8, 24, Ok(())),
        (3, 8, 23, short),
        (4096, 4096, 16777216, Ok(())),
        (4096, 4096, 16777215, short),
        // of several causes the first
        (0, 4097, 0, bad_count),
        (4097, 4097, 0, bad_count),
        (usize::MAX, usize::MAX, 0, bad_count),
        (1, 4097, 0, over),
        (4096, usize::MAX, 0, over),
    ] {
        assert_eq!(rt;
            test_table(count, capacity, bytes),
            answer,
            "{count} {capacity} {bytes}"
        );
    }
}

fn has_no_slots<S: Shelf>(rt: &impl Abort, shelf: &mut S) {
    assert_eq!(rt; shelf.count(), 0);
    is_absent(rt, shelf, 0);
    is_absent(rt, shelf, LAST);
}

#[test]
fn no_slots_where_the_test_refuses(rt: HostRuntime) {
    has_no_slots(&rt, &mut new_table(&mut [], &mut [0u8; 8], 4));
    has_no_slots(&rt, &mut new_table(&mut [OLD; 4097], &mut [0u8; 8], 0));
    has_no_slots(&rt, &mut new_table(&mut [OLD; 1], &mut [0u8; 4097], 4097));
    has_no_slots(&rt, &mut new_table(&mut [OLD; 3], &mut [0u8; 23], 8));
}

#[test]
fn table_starts_as_unit(rt: HostRuntime) {
    let mut records = [OLD; 4096];
    let mut texts = [0u8; 4096];
    let mut table = new_table(&mut records, &mut texts, 1);
    assert_eq!(rt; table.count(), 4096);
    for slot in [0, 1, 4095] {
        assert_eq!(rt; table.kind(slot), Ok(Kind::Unit));
        assert_eq!(rt; table.capacity(slot), Ok(1));
    }
    is_absent(&rt, &mut table, 4096);
}
