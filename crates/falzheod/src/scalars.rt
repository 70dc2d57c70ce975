// Scalars of a body and of a text, find, and the whole text. `value` is left alone by a refusal; a length says how many bytes were written,
// 0 where it refused; `place` is where the failing `&` stands in the body, and 0 where the number is not 7.
ghost use Rattle.readings.specs.Call.{uploaded};
ghost use Rattle.document.specs.Text.{string_in};
ghost use Rattle.readings.specs.Scalar.{boolean_of, integer_of, boolean_reading, integer_reading, string_reading, whole_text};
ghost use Rattle.readings.specs.Find as readings;
ghost use Rattle.deserializer.specs.Call.{settings_by, shape_depth};
ghost use Rattle.scalar.specs.Calls.{BooleanCall, IntegerCall, StringCall, FindCall, BooleanRead, IntegerRead, StringRead};
ghost use Rattle.falzheod.specs.Numbers.{size_of};

use deserializer::settings_by;
use scalar::calls::{
    give_boolean, give_integer, give_length, give_part, give_read_boolean, give_read_integer,
    give_read_length,
};
use scalar::find::finding_of;
use scalar::read::{read_boolean, read_integer, read_string};
use scalar::text::{boolean_of, integer_of, string_of};
use scalar::whole::whole_text;
use sheet::ShapeDepth;
use table::Table;

// The boolean that a text spells: 0 or 11.
#[tactic(auto, using(scalar::proofs::Calling::call_laws))]
pub fn falzheod_text_boolean(text: &[u8], value: &mut u32) -> u32
    ensures value { BooleanCall (boolean_of text.now) value.old value.new result }
{
    give_boolean(boolean_of(text), value)
}

// The integer that a text spells: 0 or 12.
#[tactic(auto, using(scalar::proofs::Calling::call_laws))]
pub fn falzheod_text_integer(text: &[u8], value: &mut i32) -> u32
    ensures value { IntegerCall (integer_of text.now) value.old value.new result }
{
    give_integer(integer_of(text), value)
}

// A text as a string: 0 or 10.
#[tactic(auto, using(scalar::proofs::Calling::call_laws))]
pub fn falzheod_text_string(text: &[u8], out: &mut [u8], length: &mut usize) -> u32
    ensures value { StringCall (string_in (size_of out.old) text.now) out.old out.new
        length.new result }
{
    give_length(string_of(text, out), length)
}

// The boolean of a body: 0, 1, 4, 6, 7, 8, 9 or 11. The maximum depth is not asked.
#[tactic(auto, using(scalar::proofs::Calling::call_laws))]
pub fn falzheod_read_boolean(
    body: &[u8],
    rows: &[u32],
    end: u32,
    flags: u32,
    depth: u32,
    value: &mut u32,
    place: &mut usize,
) -> u32
    ensures reading { BooleanRead (boolean_reading (uploaded body.now rows.now end) (settings_by flags 0)
        (shape_depth depth)) value.old value.new place.new result }
{
    let table = Table { body, rows, end };
    let settings = settings_by(flags, 0);
    let read = read_boolean(table, settings, ShapeDepth(depth));
    give_read_boolean(read, value, place)
}

// The integer of a body: 0, 1, 4, 6, 7, 8, 9 or 12.
#[tactic(auto, using(scalar::proofs::Calling::call_laws))]
pub fn falzheod_read_integer(
    body: &[u8],
    rows: &[u32],
    end: u32,
    flags: u32,
    depth: u32,
    value: &mut i32,
    place: &mut usize,
) -> u32
    ensures reading { IntegerRead (integer_reading (uploaded body.now rows.now end) (settings_by flags 0)
        (shape_depth depth)) value.old value.new place.new result }
{
    let table = Table { body, rows, end };
    let settings = settings_by(flags, 0);
    let read = read_integer(table, settings, ShapeDepth(depth));
    give_read_integer(read, value, place)
}

// The string of a body: 0, 1, 4, 6, 7, 8, 9 or 10.
#[tactic(auto, using(scalar::proofs::Calling::call_laws))]
pub fn falzheod_read_string(
    body: &[u8],
    rows: &[u32],
    end: u32,
    flags: u32,
    depth: u32,
    out: &mut [u8],
    length: &mut usize,
    place: &mut usize,
) -> u32
    ensures reading { StringRead (string_reading (uploaded body.now rows.now end) (settings_by flags 0)
        (shape_depth depth) (size_of out.old)) out.old out.new length.new place.new result }
{
    let table = Table { body, rows, end };
    let settings = settings_by(flags, 0);
    let read = read_string(table, settings, ShapeDepth(depth), out);
    give_read_length(read, length, place)
}

// The part of a body that has the name: 0, 1 or 13. Start and length are 0 where it is refused.
#[tactic(auto, using(scalar::proofs::Calling::call_laws))]
pub fn falzheod_find(
    body: &[u8],
    rows: &[u32],
    end: u32,
    name: &[u8],
    start: &mut usize,
    length: &mut usize,
) -> u32
    ensures found { FindCall (readings.find (uploaded body.now rows.now end) name.now)
        start.new length.new result }
{
    give_part(finding_of(Table { body, rows, end }, name), start, length)
}

// The whole text of a body: 0, 1, 4, 6, 9 or 10.
#[tactic(auto, using(scalar::proofs::Calling::call_laws))]
pub fn falzheod_whole_text(
    body: &[u8],
    rows: &[u32],
    end: u32,
    out: &mut [u8],
    length: &mut usize,
) -> u32
    ensures reading { StringCall (whole_text (uploaded body.now rows.now end) (size_of out.old))
        out.old out.new length.new result }
{
    give_length(whole_text(Table { body, rows, end }, out), length)
}
