// Lent records, and lent bytes for their texts: that of slot k begins at byte k times the capacity. The caller lends both, so that
// a shelf takes no memory of its own.
ghost use Rattle.std.specs.Prelude.{◌≡◌, true};
ghost use Rattle.table.specs.Rows.{whole};

use crate::record::Record;

#[derive(Drop)]
pub struct Table<'a> {
    pub records: &'a mut [Record],
    pub texts: &'a mut [u8],
    pub capacity: usize,
    pub ghost whole: { whole records.now texts.now capacity ≡ true },
}
