// The fields of a map entry: what a child of the entry makes of them. A text is measured as it is met, so that what is refused in it is
// refused before room is tested, and unescaped only when the entry is written.
ghost use Rattle.std.specs.Prelude.{◌≡◌};
ghost use Rattle.std.proofs.Math.Option.{some};
ghost use Rattle.document.specs.Text.{text_of};
ghost use Rattle.document.specs.Part.{bytes_of, measured_as};
ghost use Rattle.readings.specs.Collection.{fields_plan, read_field, value_in};
ghost use Rattle.codec.specs.Collection.{map_said};
ghost use Rattle.decode.specs.View.{view_of};
ghost use Rattle.decode.specs.Element.{DroppedIs, child_of};
ghost use Rattle.output.specs.Held.{Does};
ghost use Rattle.opening.specs.Opening.{body_of};
ghost use Rattle.map.specs.Values.{value_as, value_at};

use codec::collection::MapSheet;
use decode::element::Element;
use decode::place::Past;
use document::part::{Measured, Piece};
use output::Output;
use refusal::Refusal;

// The value of an entry.
#[derive(Clone, Copy)]
pub enum Value<'a> {
    Text(Measured<'a>),
    Piece(Piece),
}

// The key and the value of an entry, as far as they were met: of several the last.
#[derive(Clone, Copy)]
pub struct Fields<'a> {
    pub key: Option<Measured<'a>>,
    pub value: Option<Value<'a>>,
}

// The first text of an element, its references tested.
fn read_text<'a>(child: &Element<'a>) -> Result<Measured<'a>, Refusal>
    ensures { measured_as result ≡ text_of (view_of child.now.view) (child_of child.now) }
{
    child.try_data()?.measure()
}

// A value: a piece where it is aggregate, and a text otherwise.
fn read_value<'a>(child: &Element<'a>, past: Past, aggregate: bool) -> Result<Value<'a>, Refusal>
    requires { DroppedIs child.now past }
    ensures { value_as result ≡ value_in (body_of child.now) (view_of child.now.view) aggregate (child_of child.now) }
{
    if aggregate {
        return Ok(Value::Piece(child.piece(past)));
    }
    let text = read_text(child)?;
    Ok(Value::Text(text))
}

impl<'a> Fields<'a> {
    ghost use Rattle.map.specs.Fields.{fields_as, fields_of};
    ghost use Rattle.map.specs.Values.{key_of, value_of};

    // Takes what a child of the entry is: one that has both names is a key.
    pub fn read(&mut self, child: &Element<'a>, past: Past, sheet: &MapSheet) -> Result<(), Refusal>
        requires { DroppedIs child.now past }
        ensures { fields_as self.new result ≡ read_field (body_of child.now) (view_of child.now.view) (map_said sheet.now)
            (fields_of self.old) (child_of child.now) }
    {
        let local = child.local();
        if sheet.is_key(local) {
            let key = read_text(child)?;
            self.key = Some(key);
            return Ok(());
        }
        if sheet.is_value(local) {
            let value = read_value(child, past, sheet.value_aggregate())?;
            self.value = Some(value);
        }
        Ok(())
    }

    // Writes the entry that has them, key and value together, and nothing where one is missing.
    pub fn write(self, out: &mut Output) -> Result<(), Refusal>
        ensures { Does (fields_plan (key_of self.entry.key) (value_of self.entry.value)) out.old out.new result }
    {
        match (self.key, self.value) {
            (Some(key), Some(value)) => write_both(key, value, out),
            _ => Ok(()),
        }
    }
}

// Writes an entry whose key and value were met.
fn write_both(key: Measured, value: Value, out: &mut Output) -> Result<(), Refusal>
    ensures { Does (fields_plan (some (bytes_of key.entry)) (some (value_at value.entry))) out.old out.new result }
{
    match value {
        Value::Text(text) => out.write_key_text(key, text),
        Value::Piece(piece) => out.write_key_piece(key, piece),
    }
}
