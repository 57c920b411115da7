// The six calls of shelves of every make: what is told and where, and which refusal comes first.
use crate::trial::{FILL, Given, NO_STR, as_given, str_at};
use fault::Fault;
use layers::{Joined, Sealed};
use shelf::{Mark, Shelf};
use std::process::Abort;
use table::{Record, new_table};
use value::{Kind, Value};

pub const LAST: u32 = 4294967295;

const BLANK: Record = Record { value: Value::Unit };

const ABC: Value<&[u8]> = Value::Str(b"abc");

const NO_UTF8: Value<&[u8]> = Value::Str(b"\xc0\x80");

// Over the capacity of every slot here.
const LONG: Value<&[u8]> = Value::Str(b"abcdefgh");

// What a slot with a unit tells.
const UNIT: (Given, &[u8; 8]) = (Given::Unit, b"........");

// What a slot tells into a buffer at a place, and the whole buffer afterwards.
fn tells<S: Shelf>(
    rt: &impl Abort,
    shelf: &mut S,
    slot: u32,
    place: usize,
    answer: Result<Given, Fault>,
    bytes: &[u8; 8],
) {
    let mut buffer = [FILL; 8];
    assert_eq!(rt; shelf.tell(slot, &mut buffer, place).map(as_given), answer);
    assert_eq!(rt; buffer, *bytes);
}

// Every call that names the slot is refused 3. Of TELL that comes before room, and of POST behind a malformed value alone.
pub(crate) fn is_absent<S: Shelf>(rt: &impl Abort, shelf: &mut S, slot: u32) {
    let absent = Err(Fault::Absent);
    assert_eq!(rt; shelf.kind(slot), Err(Fault::Absent));
    assert_eq!(rt; shelf.capacity(slot), Err(Fault::Absent));
    assert_eq!(rt; shelf.mark(slot), Err(Fault::Absent));
    tells(rt, shelf, slot, 0, absent, b"........");
    tells(rt, shelf, slot, 9, absent, b"........");
    assert_eq!(rt; shelf.post(slot, NO_UTF8), Err(Fault::Malformed));
    assert_eq!(rt; shelf.post(slot, Value::Unit), Err(Fault::Absent));
    assert_eq!(rt; shelf.post(slot, LONG), Err(Fault::Absent));
}

// Of three slots with "abc", an empty str and a unit.
fn tells_in_place<S: Shelf>(rt: &impl Abort, shelf: &mut S, slots: [u32; 3]) {
    let [slot, empty, unit] = slots;
    let short = Err(Fault::BufferShort);
    tells(rt, shelf, slot, 0, Ok(str_at(0, 3)), b"abc.....");
    tells(rt, shelf, slot, 3, Ok(str_at(3, 3)), b"...abc..");
    tells(rt, shelf, slot, 5, Ok(str_at(5, 3)), b".....abc");
    tells(rt, shelf, slot, 6, short, b"........");
    tells(rt, shelf, slot, usize::MAX, short, b"........");
    tells(rt, shelf, empty, 8, Ok(str_at(8, 0)), b"........");
    tells(rt, shelf, empty, 9, short, b"........");
    tells(rt, shelf, unit, 9, Ok(Given::Unit), b"........");
    tells(rt, shelf, unit, usize::MAX, Ok(Given::Unit), b"........");
}

#[test]
fn told_in_place(rt: HostRuntime) {
    let mut records = [BLANK; 3];
    let mut texts = [0u8; 12];
    let mut table = new_table(&mut records, &mut texts, 4);
    assert_eq!(rt; table.post(0, ABC), Ok(()));
    assert_eq!(rt; table.post(1, NO_STR), Ok(()));
    tells_in_place(&rt, &mut table, [0, 1, 2]);
    let mut first = [BLANK; 2];
    let mut sealed = Sealed::new(table);
    tells_in_place(&rt, &mut sealed, [0, 1, 2]);
    let mut joined = Joined::new(new_table(&mut first, &mut [], 0), sealed);
    tells_in_place(&rt, &mut joined, [2, 3, 4]);
}

#[test]
fn absent(rt: HostRuntime) {
    let mut records = [BLANK; 3];
    let mut texts = [0u8; 12];
    let mut table = new_table(&mut records, &mut texts, 4);
    is_absent(&rt, &mut table, 3);
    is_absent(&rt, &mut table, LAST);
    let mut sealed = Sealed::new(table);
    is_absent(&rt, &mut sealed, 3);
    is_absent(&rt, &mut sealed, LAST);
    let mut first = [BLANK; 2];
    let mut joined = Joined::new(new_table(&mut first, &mut [], 0), sealed);
    is_absent(&rt, &mut joined, 5);
    is_absent(&rt, &mut joined, LAST);
}

// What a posting answers, and what the slot holds afterwards.
fn posts<S: Shelf>(
    rt: &impl Abort,
    shelf: &mut S,
    slot: u32,
    value: Value<&[u8]>,
    answer: Result<(), Fault>,
    holds: (Given, &[u8; 8]),
) {
    let (given, bytes) = holds;
    assert_eq!(rt; shelf.post(slot, value), answer);
    tells(rt, shelf, slot, 0, Ok(given), bytes);
}

// Two open slots of 2 bytes, two of 3 bytes, and two sealed ones of 4.
#[test]
fn posted_through_joins(rt: HostRuntime) {
    let (mut a, mut b, mut c) = ([BLANK; 2], [BLANK; 2], [BLANK; 2]);
    let (mut two, mut three, mut four) = ([0u8; 4], [0u8; 6], [0u8; 8]);
    let mut below = new_table(&mut c, &mut four, 4);
    assert_eq!(rt; below.post(0, ABC), Ok(()));
    let open = Joined::new(
        new_table(&mut a, &mut two, 2),
        new_table(&mut b, &mut three, 3),
    );
    let mut shelf = Joined::new(open, Sealed::new(below));
    let over = Err(Fault::OverCapacity);
    let sealed = Err(Fault::Sealed);
    let malformed = Err(Fault::Malformed);
    let abc = (str_at(0, 3), b"abc.....");
    // over the capacity of the slot that it is posted to, and not over that of the next
    posts(&rt, &mut shelf, 1, ABC, over, UNIT);
    posts(&rt, &mut shelf, 2, ABC, Ok(()), abc);
    posts(&rt, &mut shelf, 3, Value::Str(b"abcd"), over, UNIT);
    posts(&rt, &mut shelf, 2, NO_UTF8, malformed, abc);
    posts(&rt, &mut shelf, 2, LONG, over, abc);
    // sealed comes behind malformed and before the capacity
    posts(&rt, &mut shelf, 4, Value::Unit, sealed, abc);
    posts(&rt, &mut shelf, 4, LONG, sealed, abc);
    posts(&rt, &mut shelf, 4, NO_UTF8, malformed, abc);
    posts(&rt, &mut shelf, 5, NO_STR, sealed, UNIT);
    is_absent(&rt, &mut shelf, 6);
}

// A text of 65,537 bytes is no value, and one of a byte less is over the capacity, where there is a slot and it is open.
#[test]
fn overlong_posted(rt: HostRuntime) {
    let text = [0u8; 65537];
    let (longest, overlong) = (Value::Blob(&text[1..]), Value::Blob(&text[..]));
    let (over, malformed) = (Err(Fault::OverCapacity), Err(Fault::Malformed));
    let mut records = [BLANK; 1];
    let mut texts = [0u8; 8];
    let mut table = new_table(&mut records, &mut texts, 8);
    posts(&rt, &mut table, 0, longest, over, UNIT);
    posts(&rt, &mut table, 0, overlong, malformed, UNIT);
    assert_eq!(rt; table.post(1, longest), Err(Fault::Absent));
    assert_eq!(rt; table.post(1, overlong), malformed);
    let mut sealed = Sealed::new(table);
    posts(&rt, &mut sealed, 0, longest, Err(Fault::Sealed), UNIT);
    posts(&rt, &mut sealed, 0, overlong, malformed, UNIT);
}

// Tables of 2, 1, 3 and 1 slots with capacities of 1, 2, 3 and 4 bytes, the last sealed; each slot holds its number.
#[test]
fn seams(rt: HostRuntime) {
    let (mut a, mut b, mut c, mut d) = ([BLANK; 2], [BLANK; 1], [BLANK; 3], [BLANK; 1]);
    let (mut one, mut two, mut three, mut four) = ([0u8; 2], [0u8; 2], [0u8; 9], [0u8; 4]);
    let mut below = new_table(&mut d, &mut four, 4);
    assert_eq!(rt; below.post(0, Value::Int(6)), Ok(()));
    let left = Joined::new(
        new_table(&mut a, &mut one, 1),
        new_table(&mut b, &mut two, 2),
    );
    let right = Joined::new(new_table(&mut c, &mut three, 3), Sealed::new(below));
    let mut shelf = Joined::new(left, right);
    assert_eq!(rt; shelf.count(), 7);
    for (slot, n) in [(0, 0), (1, 1), (2, 2), (3, 3), (4, 4), (5, 5)] {
        assert_eq!(rt; shelf.post(slot, Value::Int(n)), Ok(()));
    }
    for (slot, n, capacity, mark) in [
        (0, 0, 1, Mark::Open),
        (1, 1, 1, Mark::Open),
        (2, 2, 2, Mark::Open),
        (3, 3, 3, Mark::Open),
        (4, 4, 3, Mark::Open),
        (5, 5, 3, Mark::Open),
        (6, 6, 4, Mark::Sealed),
    ] {
        assert_eq!(rt; shelf.kind(slot), Ok(Kind::Int), "slot {slot}");
        assert_eq!(rt; shelf.capacity(slot), Ok(capacity), "slot {slot}");
        assert_eq!(rt; shelf.mark(slot), Ok(mark), "slot {slot}");
        tells(&rt, &mut shelf, slot, 9, Ok(Given::Int(n)), b"........");
    }
    is_absent(&rt, &mut shelf, 7);
}
