// Building a table, and the test before it.
ghost use Rattle.std.specs.Prelude.{◌≡◌, length};
ghost use Rattle.table.specs.Rows.{tested, built};
ghost use Rattle.table.specs.Tables.{table_slots};

use crate::record::Record;
use crate::table::Table;
use fault::Fault;
use value::Value;

// Whether a table of so many slots and bytes can be built.
pub fn test_table(count: usize, capacity: usize, bytes: usize) -> Result<(), Fault>
    ensures { result ≡ tested count capacity bytes }
{
    if !(1..=4096).contains(&count) {
        return Err(Fault::BadLine);
    }
    if capacity > 4096 {
        return Err(Fault::OverCapacity);
    }
    if bytes < count * capacity {
        return Err(Fault::BufferShort);
    }
    Ok(())
}

// A table with every slot unit and open; without slots where the test refuses.
pub fn new_table<'a>(records: &'a mut [Record], texts: &'a mut [u8], capacity: usize) -> Table<'a>
    ensures { table_slots result ≡ built (length records.old) capacity (length texts.old) }
{
    if test_table(records.len(), capacity, texts.len()).is_err() {
        return Table {
            records: &mut records[..0],
            texts,
            capacity,
        };
    }
    records.fill(Record { value: Value::Unit });
    Table {
        records,
        texts,
        capacity,
    }
}
