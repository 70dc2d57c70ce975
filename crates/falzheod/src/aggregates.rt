// The readings by a sheet. `entries` are six numbers an entry, of any length: there is room for a sixth of it, rounded down. `count` is how
// many entries are written, and `length` how many text bytes, finished or refused; all else of both buffers stays as it was. flags: 1
// validate_document, 2 validate_root_name, 4 strict_collection_element_names; other bits are passed over. `place`, of a map and a string
// list, is where the failing `&` stands in the body, and 0 where the number is not 7; a structure and a list never answer 7. The last
// promise of each is demand 3: what holds where the drain passes the body and the table.
ghost use Rattle.std.specs.Prelude.{◌≡◌};
ghost use Rattle.output.specs.Call.{number_of};
ghost use Rattle.deserializer.specs.Call.{SheetCall, SheetPlace, settings_by, shape_depth};
ghost use Rattle.deserializer.specs.Demand.{Demanded};
ghost use Rattle.deserializer.specs.declared.Shape.{Shape};
ghost use Rattle.readings.specs.Call.{uploaded, calling};

use deserializer::{Reading, Shape, read, settings_by};
use sheet::ShapeDepth;
use table::Table;

// What came of a reading, in numbers.
fn tell(reading: Reading, count: &mut usize, length: &mut usize) -> u32
    ensures { (count.new ≡ reading.count) × (length.new ≡ reading.length) × (result ≡ number_of reading.outcome) }
{
    *count = reading.count;
    *length = reading.length;
    reading.number()
}

// The structure reading: 0, 1, 2, 3, 4, 5, 9 or 10.
pub fn falzheod_read_struct(
    body: &[u8],
    rows: &[u32],
    end: u32,
    sheet: &[u8],
    flags: u32,
    max_depth: u32,
    depth: u32,
    entries: &mut [u32],
    texts: &mut [u8],
    count: &mut usize,
    length: &mut usize,
) -> u32
    ensures reading { SheetCall Shape.Struct (uploaded body.now rows.now end)
        (calling sheet.now (settings_by flags max_depth) (shape_depth depth))
        entries.old texts.old entries.new texts.new count.new length.new result }
    ensures demand { Demanded Shape.Struct (uploaded body.now rows.now end)
        (calling sheet.now (settings_by flags max_depth) (shape_depth depth))
        entries.old texts.old entries.new count.new result }
{
    let reading = read(
        Shape::Struct,
        Table { body, rows, end },
        sheet,
        settings_by(flags, max_depth),
        ShapeDepth(depth),
        entries,
        texts,
    );
    tell(reading, count, length)
}

// The list reading: 0, 1, 2, 3, 4, 9 or 10. No text is written.
pub fn falzheod_read_list(
    body: &[u8],
    rows: &[u32],
    end: u32,
    sheet: &[u8],
    flags: u32,
    max_depth: u32,
    depth: u32,
    entries: &mut [u32],
    texts: &mut [u8],
    count: &mut usize,
    length: &mut usize,
) -> u32
    ensures reading { SheetCall Shape.List (uploaded body.now rows.now end)
        (calling sheet.now (settings_by flags max_depth) (shape_depth depth))
        entries.old texts.old entries.new texts.new count.new length.new result }
    ensures demand { Demanded Shape.List (uploaded body.now rows.now end)
        (calling sheet.now (settings_by flags max_depth) (shape_depth depth))
        entries.old texts.old entries.new count.new result }
{
    let reading = read(
        Shape::List,
        Table { body, rows, end },
        sheet,
        settings_by(flags, max_depth),
        ShapeDepth(depth),
        entries,
        texts,
    );
    tell(reading, count, length)
}

// The map reading: 0, 1, 2, 3, 4, 6, 7, 8, 9 or 10.
pub fn falzheod_read_map(
    body: &[u8],
    rows: &[u32],
    end: u32,
    sheet: &[u8],
    flags: u32,
    max_depth: u32,
    depth: u32,
    entries: &mut [u32],
    texts: &mut [u8],
    count: &mut usize,
    length: &mut usize,
    place: &mut usize,
) -> u32
    ensures reading { SheetCall Shape.Map (uploaded body.now rows.now end)
        (calling sheet.now (settings_by flags max_depth) (shape_depth depth))
        entries.old texts.old entries.new texts.new count.new length.new result }
    ensures place { SheetPlace Shape.Map (uploaded body.now rows.now end)
        (calling sheet.now (settings_by flags max_depth) (shape_depth depth))
        entries.old texts.old place.new }
    ensures demand { Demanded Shape.Map (uploaded body.now rows.now end)
        (calling sheet.now (settings_by flags max_depth) (shape_depth depth))
        entries.old texts.old entries.new count.new result }
{
    let reading = read(
        Shape::Map,
        Table { body, rows, end },
        sheet,
        settings_by(flags, max_depth),
        ShapeDepth(depth),
        entries,
        texts,
    );
    *place = reading.place();
    tell(reading, count, length)
}

// The string list reading: 0, 1, 2, 3, 4, 6, 7, 8, 9 or 10.
pub fn falzheod_read_string_list(
    body: &[u8],
    rows: &[u32],
    end: u32,
    sheet: &[u8],
    flags: u32,
    max_depth: u32,
    depth: u32,
    entries: &mut [u32],
    texts: &mut [u8],
    count: &mut usize,
    length: &mut usize,
    place: &mut usize,
) -> u32
    ensures reading { SheetCall Shape.StringList (uploaded body.now rows.now end)
        (calling sheet.now (settings_by flags max_depth) (shape_depth depth))
        entries.old texts.old entries.new texts.new count.new length.new result }
    ensures place { SheetPlace Shape.StringList (uploaded body.now rows.now end)
        (calling sheet.now (settings_by flags max_depth) (shape_depth depth))
        entries.old texts.old place.new }
    ensures demand { Demanded Shape.StringList (uploaded body.now rows.now end)
        (calling sheet.now (settings_by flags max_depth) (shape_depth depth))
        entries.old texts.old entries.new count.new result }
{
    let reading = read(
        Shape::StringList,
        Table { body, rows, end },
        sheet,
        settings_by(flags, max_depth),
        ShapeDepth(depth),
        entries,
        texts,
    );
    *place = reading.place();
    tell(reading, count, length)
}
