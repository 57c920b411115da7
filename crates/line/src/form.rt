// A line by its form, with the fields that are still to be read.
ghost use Rattle.std.specs.Prelude.{◌≤◌, length};

// The field of a value, which is no longer than a line.
#[derive(Clone, Copy)]
pub struct Field<'a> {
    pub bytes: &'a [u8],
    pub ghost short: { length bytes.now ≤ 4096 },
}

#[derive(Clone, Copy)]
pub enum Form<'a> {
    Post {
        slot: &'a [u8],
        kind: &'a [u8],
        value: Field<'a>,
    },
    Clear,
    Check,
    Run,
    Put {
        kind: &'a [u8],
        value: Field<'a>,
    },
    Slot(&'a [u8]),
    Local(&'a [u8]),
    Keep(&'a [u8]),
    Op(&'a [u8]),
    Set {
        op: &'a [u8],
        local: &'a [u8],
    },
}
