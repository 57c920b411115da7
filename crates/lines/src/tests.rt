// The shelf at given lines: each refusal, and the values of all nine kinds.
use crate::{new_lines, test_lines};
use fault::{Fault, Refusal};
use shelf::{Mark, Shelf};
use text::Span;
use value::{Kind, Value};

const ALL: &[u8] =
    b"unit\t\nbool\ttrue\nint\t-25\nfloat\t4039800000000000\nchar\te282ac\nstr\t6b67\nblob\t00ff7f\nexcl\t1,2\nincl\t-3,4";

fn bad_line(place: usize) -> Result<(), Refusal> {
    Err(Refusal {
        fault: Fault::BadLine,
        place,
    })
}

#[test]
fn bad_lines(rt: HostRuntime) {
    let tries: [(&[u8], usize); 23] = [
        (b"", 0),
        (b"\n", 0),
        (b"unit", 0),
        (b"unit\t\n\nunit\t", 1),
        (b"unit\t\nunit\t\nint", 2),
        (b"unit\t\n\n", 1),
        (b"real\t1\nunit", 0),
        (b"int\t1\nInt\t1", 1),
        (b"int\t025", 0),
        (b"int\t1\r\n", 0),
        (b"unit\t\t", 0),
        (b"str\t6B", 0),
        (b"blob\tff\nstr\tff", 1),
        (b"float\t7ff8000000000000", 0),
        (b"float\t7ff0000000000000\nfloat\t7ff0000000000001", 1),
        (b"bool\tTrue", 0),
        (b"bool\t1", 0),
        (b"char\t", 0),
        (b"char\t6162", 0),
        (b"char\teda080", 0),
        (b"excl\t1", 0),
        (b"incl\t1,", 0),
        (b"incl\t1,2\nexcl\t1,02", 1),
    ];
    for (bytes, place) in tries {
        assert_eq!(rt; test_lines(bytes), bad_line(place));
        assert_eq!(rt; new_lines(bytes).count(), 0);
    }
}

// 4,097 lines, six bytes each.
fn units() -> [u8; 24582] {
    let mut bytes = [b'\n'; 24582];
    for k in 0..4097 {
        bytes[6 * k..6 * k + 5].copy_from_slice(b"unit\t");
    }
    bytes
}

fn front(bytes: &[u8], len: usize) -> &[u8] {
    &bytes[..len.min(bytes.len())]
}

#[test]
fn most_lines(rt: HostRuntime) {
    let bytes = units();
    for (len, answer) in [
        (24582, bad_line(0)),
        (24577, bad_line(0)),
        (24576, Ok(())),
        (24575, Ok(())),
    ] {
        assert_eq!(rt; test_lines(front(&bytes, len)), answer);
    }
    assert_eq!(rt; new_lines(&bytes).count(), 0);
    let shelf = new_lines(front(&bytes, 24575));
    assert_eq!(rt; shelf.count(), 4096);
    assert_eq!(rt; shelf.kind(4095), Ok(Kind::Unit));
    assert_eq!(rt; shelf.kind(4096), Err(Fault::Absent));
}

#[test]
fn count_before_lines(rt: HostRuntime) {
    let mut bytes = units();
    bytes[6] = b'x';
    assert_eq!(rt; test_lines(&bytes), bad_line(0));
    assert_eq!(rt; test_lines(front(&bytes, 24576)), bad_line(1));
}

#[test]
fn longest_text(rt: HostRuntime) {
    let mut bytes = [b'0'; 131079];
    bytes[..5].copy_from_slice(b"blob\t");
    assert_eq!(rt; test_lines(&bytes), bad_line(0));
    assert_eq!(rt; test_lines(front(&bytes, 131077)), Ok(()));
    assert_eq!(rt; new_lines(front(&bytes, 131077)).capacity(0), Ok(65536));
}

#[test]
fn slots_of_all_kinds(rt: HostRuntime) {
    let shelf = new_lines(ALL);
    assert_eq!(rt; test_lines(ALL), Ok(()));
    assert_eq!(rt; shelf.count(), 9);
    let slots = [
        (Kind::Unit, 0),
        (Kind::Bool, 0),
        (Kind::Int, 0),
        (Kind::Float, 0),
        (Kind::Char, 0),
        (Kind::Str, 2),
        (Kind::Blob, 3),
        (Kind::Excl, 0),
        (Kind::Incl, 0),
    ];
    for (k, (kind, capacity)) in slots.into_iter().enumerate() {
        assert_eq!(rt; shelf.kind(k as u32), Ok(kind));
        assert_eq!(rt; shelf.capacity(k as u32), Ok(capacity));
        assert_eq!(rt; shelf.mark(k as u32), Ok(Mark::Sealed));
    }
    assert_eq!(rt; shelf.kind(9), Err(Fault::Absent));
    assert_eq!(rt; shelf.capacity(4294967295), Err(Fault::Absent));
    assert_eq!(rt; shelf.mark(9), Err(Fault::Absent));
}

#[test]
fn told_values(rt: HostRuntime) {
    let mut shelf = new_lines(ALL);
    let mut none = [7u8; 2];
    assert!(rt; matches!(shelf.tell(0, &mut none, 9), Ok(Value::Unit)));
    assert!(rt; matches!(shelf.tell(1, &mut none, 9), Ok(Value::Bool(true))));
    assert!(rt; matches!(shelf.tell(2, &mut none, 9), Ok(Value::Int(-25))));
    assert!(rt; matches!(shelf.tell(3, &mut none, 9), Ok(Value::Float(x)) if x == 25.5));
    assert!(rt; matches!(shelf.tell(4, &mut none, 9), Ok(Value::Char('€'))));
    assert!(rt;
        matches!(shelf.tell(7, &mut none, 9), Ok(Value::Excl(r)) if r.from == 1 && r.to == 2)
    );
    assert!(rt;
        matches!(shelf.tell(8, &mut none, 9), Ok(Value::Incl(r)) if r.from == -3 && r.to == 4)
    );
    assert_eq!(rt; none, [7, 7]);
}

#[test]
fn told_texts(rt: HostRuntime) {
    let mut shelf = new_lines(ALL);
    let mut buffer = [7u8; 5];
    assert!(rt;
        matches!(
            shelf.tell(5, &mut buffer, 1),
            Ok(Value::Str(Span { start: 1, len: 2 }))
        )
    );
    assert_eq!(rt; buffer, [7, b'k', b'g', 7, 7]);
    assert!(rt;
        matches!(
            shelf.tell(6, &mut buffer, 2),
            Ok(Value::Blob(Span { start: 2, len: 3 }))
        )
    );
    assert_eq!(rt; buffer, [7, b'k', 0, 255, 127]);
    assert!(rt; matches!(shelf.tell(6, &mut buffer, 3), Err(Fault::BufferShort)));
    assert!(rt; matches!(shelf.tell(5, &mut buffer, 6), Err(Fault::BufferShort)));
    assert!(rt; matches!(shelf.tell(9, &mut buffer, 6), Err(Fault::Absent)));
    assert_eq!(rt; buffer, [7, b'k', 0, 255, 127]);
}

// A text of no bytes needs no room, and still no place behind the buffer's end.
#[test]
fn told_empty_text(rt: HostRuntime) {
    let mut shelf = new_lines(b"str\t");
    let mut buffer = [7u8; 3];
    assert!(rt;
        matches!(
            shelf.tell(0, &mut buffer, 3),
            Ok(Value::Str(Span { start: 3, len: 0 }))
        )
    );
    assert!(rt; matches!(shelf.tell(0, &mut buffer, 4), Err(Fault::BufferShort)));
    assert!(rt;
        matches!(
            shelf.tell(0, &mut buffer, usize::MAX),
            Err(Fault::BufferShort)
        )
    );
    assert_eq!(rt; buffer, [7, 7, 7]);
}

#[test]
fn no_postings(rt: HostRuntime) {
    let mut shelf = new_lines(ALL);
    assert_eq!(rt; shelf.post(9, Value::Str(b"\xff")), Err(Fault::Malformed));
    assert_eq!(rt; shelf.post(9, Value::Int(1)), Err(Fault::Absent));
    assert_eq!(rt; shelf.post(2, Value::Int(1)), Err(Fault::Sealed));
    assert_eq!(rt; shelf.post(5, Value::Str(b"long")), Err(Fault::Sealed));
    let mut none = [7u8; 0];
    assert!(rt; matches!(shelf.tell(2, &mut none, 0), Ok(Value::Int(-25))));
}
