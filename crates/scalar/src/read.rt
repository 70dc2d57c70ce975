// Booleans, integers and strings from a body: the first text of its root. A boolean and an integer need no lent buffer: the text is
// unescaped into an array, of 8 bytes for a boolean, since no longer text is one; an integer may have any number of leading zeros, so that
// its array is as long as the longest body, and a text without a reference is read where it stands.
ghost use Rattle.std.specs.Prelude.{◌≡◌, length};
ghost use Rattle.refusal.specs.Answer.{onward};
ghost use Rattle.document.specs.Part.{CopyIs, given, text_at};
ghost use Rattle.readings.specs.Scalar.{boolean_of, boolean_reading, integer_of, integer_reading, scalar_text, string_reading};
ghost use Rattle.opening.specs.Opening.{upload_of};
ghost use Rattle.scalar.specs.Answers.{answer};

use crate::text::{boolean_of, integer_of};
use document::part::Text;
use refusal::Refusal;
use sheet::{Settings, ShapeDepth};
use table::Table;

// The first text of the root of a body: "1, 4; 6 to 9 as met; 9 after the rest".
fn take_text<'a>(
    table: Table<'a>,
    settings: Settings,
    depth: ShapeDepth,
) -> Result<Text<'a>, Refusal>
    ensures { given result ≡ scalar_text (upload_of table.entry) settings depth }
{
    let root = opening::open(settings.is_strict(depth), table)?;
    let text = root.try_data()?;
    if root.view.ill_formed {
        text.measure()?;
        return Err(Refusal::IllFormed);
    }
    Ok(text)
}

// A boolean from a text.
fn boolean_in(text: Text) -> Result<bool, Refusal>
    ensures { answer result ≡ onward (text_at text.entry) boolean_of }
{
    let measured = text.measure()?;
    let mut room = [0; 8];
    if measured.len > room.len() {
        return Err(Refusal::NotBoolean);
    }
    measured.fill(&mut room);
    boolean_of(&room[..measured.len])
}

// The boolean of a body: 1, 4, 6 to 9 or 11.
pub fn read_boolean(table: Table, settings: Settings, depth: ShapeDepth) -> Result<bool, Refusal>
    ensures { answer result ≡ boolean_reading (upload_of table.entry) settings depth }
{
    let text = take_text(table, settings, depth)?;
    boolean_in(text)
}

// An integer from a text with references.
fn integer_replaced(text: Text) -> Result<i32, Refusal>
    ensures { answer result ≡ onward (text_at text.entry) integer_of }
{
    let measured = text.measure()?;
    let mut room = [0; 65536];
    measured.fill(&mut room);
    integer_of(&room[..measured.len])
}

// An integer from a text.
fn integer_in(text: Text) -> Result<i32, Refusal>
    ensures { answer result ≡ onward (text_at text.entry) integer_of }
{
    if text.bytes.contains(&b'&') {
        integer_replaced(text)
    } else {
        integer_of(text.bytes)
    }
}

// The integer of a body: 1, 4, 6 to 9 or 12.
pub fn read_integer(table: Table, settings: Settings, depth: ShapeDepth) -> Result<i32, Refusal>
    ensures { answer result ≡ integer_reading (upload_of table.entry) settings depth }
{
    let text = take_text(table, settings, depth)?;
    integer_in(text)
}

// The string of a body: 1, 4 or 6 to 10, or how many bytes were written.
pub fn read_string(
    table: Table,
    settings: Settings,
    depth: ShapeDepth,
    out: &mut [u8],
) -> Result<usize, Refusal>
    ensures { CopyIs (string_reading (upload_of table.entry) settings depth (length out.old))
        out.old out.new result }
{
    let text = take_text(table, settings, depth)?;
    text.copy(out)
}
