// The readings by a sheet, as `falzheod` has them.
ghost use Rattle.deserializer.specs.Call.{SheetCall, SheetPlace, settings_by, shape_depth};
ghost use Rattle.deserializer.specs.Demand.{Demanded};
ghost use Rattle.deserializer.specs.declared.Shape.{Shape};
ghost use Rattle.readings.specs.Call.{uploaded, calling};

#[unsafe(no_mangle)]
pub extern "C" fn falzheod_read_struct(
    body: &[u8],
    rows: &[u32],
    end: u32,
    sheet: &[u8],
    flags: u32,
    max_depth: u32,
    depth: u32,
    entries: &mut [u32],
    texts: &mut [u8],
    count: &mut usize,
    length: &mut usize,
) -> u32
    ensures reading { SheetCall Shape.Struct (uploaded body.now rows.now end)
        (calling sheet.now (settings_by flags max_depth) (shape_depth depth))
        entries.old texts.old entries.new texts.new count.new length.new result }
    ensures demand { Demanded Shape.Struct (uploaded body.now rows.now end)
        (calling sheet.now (settings_by flags max_depth) (shape_depth depth))
        entries.old texts.old entries.new count.new result }
{
    falzheod::aggregates::falzheod_read_struct(
        body, rows, end, sheet, flags, max_depth, depth, entries, texts, count, length,
    )
}

#[unsafe(no_mangle)]
pub extern "C" fn falzheod_read_list(
    body: &[u8],
    rows: &[u32],
    end: u32,
    sheet: &[u8],
    flags: u32,
    max_depth: u32,
    depth: u32,
    entries: &mut [u32],
    texts: &mut [u8],
    count: &mut usize,
    length: &mut usize,
) -> u32
    ensures reading { SheetCall Shape.List (uploaded body.now rows.now end)
        (calling sheet.now (settings_by flags max_depth) (shape_depth depth))
        entries.old texts.old entries.new texts.new count.new length.new result }
    ensures demand { Demanded Shape.List (uploaded body.now rows.now end)
        (calling sheet.now (settings_by flags max_depth) (shape_depth depth))
        entries.old texts.old entries.new count.new result }
{
    falzheod::aggregates::falzheod_read_list(
        body, rows, end, sheet, flags, max_depth, depth, entries, texts, count, length,
    )
}

#[unsafe(no_mangle)]
pub extern "C" fn falzheod_read_map(
    body: &[u8],
    rows: &[u32],
    end: u32,
    sheet: &[u8],
    flags: u32,
    max_depth: u32,
    depth: u32,
    entries: &mut [u32],
    texts: &mut [u8],
    count: &mut usize,
    length: &mut usize,
    place: &mut usize,
) -> u32
    ensures reading { SheetCall Shape.Map (uploaded body.now rows.now end)
        (calling sheet.now (settings_by flags max_depth) (shape_depth depth))
        entries.old texts.old entries.new texts.new count.new length.new result }
    ensures place { SheetPlace Shape.Map (uploaded body.now rows.now end)
        (calling sheet.now (settings_by flags max_depth) (shape_depth depth))
        entries.old texts.old place.new }
    ensures demand { Demanded Shape.Map (uploaded body.now rows.now end)
        (calling sheet.now (settings_by flags max_depth) (shape_depth depth))
        entries.old texts.old entries.new count.new result }
{
    falzheod::aggregates::falzheod_read_map(
        body, rows, end, sheet, flags, max_depth, depth, entries, texts, count, length, place,
    )
}

#[unsafe(no_mangle)]
pub extern "C" fn falzheod_read_string_list(
    body: &[u8],
    rows: &[u32],
    end: u32,
    sheet: &[u8],
    flags: u32,
    max_depth: u32,
    depth: u32,
    entries: &mut [u32],
    texts: &mut [u8],
    count: &mut usize,
    length: &mut usize,
    place: &mut usize,
) -> u32
    ensures reading { SheetCall Shape.StringList (uploaded body.now rows.now end)
        (calling sheet.now (settings_by flags max_depth) (shape_depth depth))
        entries.old texts.old entries.new texts.new count.new length.new result }
    ensures place { SheetPlace Shape.StringList (uploaded body.now rows.now end)
        (calling sheet.now (settings_by flags max_depth) (shape_depth depth))
        entries.old texts.old place.new }
    ensures demand { Demanded Shape.StringList (uploaded body.now rows.now end)
        (calling sheet.now (settings_by flags max_depth) (shape_depth depth))
        entries.old texts.old entries.new count.new result }
{
    falzheod::aggregates::falzheod_read_string_list(
        body, rows, end, sheet, flags, max_depth, depth, entries, texts, count, length, place,
    )
}
