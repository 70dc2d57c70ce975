// Scalars of a body and of a text, find, and the whole text, as `falzheod` has them.
ghost use Rattle.readings.specs.Call.{uploaded};
ghost use Rattle.document.specs.Text.{string_in};
ghost use Rattle.readings.specs.Scalar.{boolean_of, integer_of, boolean_reading, integer_reading, string_reading, whole_text};
ghost use Rattle.readings.specs.Find as readings;
ghost use Rattle.deserializer.specs.Call.{settings_by, shape_depth};
ghost use Rattle.scalar.specs.Calls.{BooleanCall, IntegerCall, StringCall, FindCall, BooleanRead, IntegerRead, StringRead};
ghost use Rattle.falzheod.specs.Numbers.{size_of};

#[unsafe(no_mangle)]
pub extern "C" fn falzheod_text_boolean(text: &[u8], value: &mut u32) -> u32
    ensures value { BooleanCall (boolean_of text.now) value.old value.new result }
{
    falzheod::scalars::falzheod_text_boolean(text, value)
}

#[unsafe(no_mangle)]
pub extern "C" fn falzheod_text_integer(text: &[u8], value: &mut i32) -> u32
    ensures value { IntegerCall (integer_of text.now) value.old value.new result }
{
    falzheod::scalars::falzheod_text_integer(text, value)
}

#[unsafe(no_mangle)]
pub extern "C" fn falzheod_text_string(text: &[u8], out: &mut [u8], length: &mut usize) -> u32
    ensures value { StringCall (string_in (size_of out.old) text.now) out.old out.new
        length.new result }
{
    falzheod::scalars::falzheod_text_string(text, out, length)
}

#[unsafe(no_mangle)]
pub extern "C" fn falzheod_read_boolean(
    body: &[u8],
    rows: &[u32],
    end: u32,
    flags: u32,
    depth: u32,
    value: &mut u32,
    place: &mut usize,
) -> u32
    ensures reading { BooleanRead (boolean_reading (uploaded body.now rows.now end) (settings_by flags 0)
        (shape_depth depth)) value.old value.new place.new result }
{
    falzheod::scalars::falzheod_read_boolean(body, rows, end, flags, depth, value, place)
}

#[unsafe(no_mangle)]
pub extern "C" fn falzheod_read_integer(
    body: &[u8],
    rows: &[u32],
    end: u32,
    flags: u32,
    depth: u32,
    value: &mut i32,
    place: &mut usize,
) -> u32
    ensures reading { IntegerRead (integer_reading (uploaded body.now rows.now end) (settings_by flags 0)
        (shape_depth depth)) value.old value.new place.new result }
{
    falzheod::scalars::falzheod_read_integer(body, rows, end, flags, depth, value, place)
}

#[unsafe(no_mangle)]
pub extern "C" fn falzheod_read_string(
    body: &[u8],
    rows: &[u32],
    end: u32,
    flags: u32,
    depth: u32,
    out: &mut [u8],
    length: &mut usize,
    place: &mut usize,
) -> u32
    ensures reading { StringRead (string_reading (uploaded body.now rows.now end) (settings_by flags 0)
        (shape_depth depth) (size_of out.old)) out.old out.new length.new place.new result }
{
    falzheod::scalars::falzheod_read_string(body, rows, end, flags, depth, out, length, place)
}

#[unsafe(no_mangle)]
pub extern "C" fn falzheod_find(
    body: &[u8],
    rows: &[u32],
    end: u32,
    name: &[u8],
    start: &mut usize,
    length: &mut usize,
) -> u32
    ensures found { FindCall (readings.find (uploaded body.now rows.now end) name.now)
        start.new length.new result }
{
    falzheod::scalars::falzheod_find(body, rows, end, name, start, length)
}

#[unsafe(no_mangle)]
pub extern "C" fn falzheod_whole_text(
    body: &[u8],
    rows: &[u32],
    end: u32,
    out: &mut [u8],
    length: &mut usize,
) -> u32
    ensures reading { StringCall (whole_text (uploaded body.now rows.now end) (size_of out.old))
        out.old out.new length.new result }
{
    falzheod::scalars::falzheod_whole_text(body, rows, end, out, length)
}
