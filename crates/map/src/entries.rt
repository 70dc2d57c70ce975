// The entries of a map: each child of the root, or each of the entries' name.
ghost use Rattle.codec.specs.Collection.{map_said};
ghost use Rattle.opening.specs.Wanted.{asked_by};
ghost use Rattle.map.specs.Fields.{FieldsRead};

use crate::fields::Fields;
use codec::collection::MapSheet;
use decode::element::Element;
use decode::place::Cursor;
use list::children::ReadChild;
use opening::is_wanted;
use output::Output;
use refusal::Refusal;
use table::patterns::Pattern;

// The fields of an entry, and where the reader stands after it.
#[derive(Clone, Copy)]
pub struct Read<'a> {
    pub fields: Fields<'a>,
    pub at: Cursor,
}

// Reads the children of an entry, to the first that is refused.
pub fn read_fields<'a>(entry: &Element<'a>, sheet: &MapSheet) -> Result<Read<'a>, Refusal>
    ensures { FieldsRead (map_said sheet.now) entry.now result }
{
    let mut scope = *entry;
    let mut fields = Fields {
        key: None,
        value: None,
    };
    let past = loop {
        let child = match scope.next_tag() {
            Ok(child) => child,
            Err(past) => {
                break past;
            }
        };
        let past = child.drain();
        fields.read(&child, past, sheet)?;
        scope = entry.from_place(past.at);
    };
    let at = entry.leave(past);
    Ok(Read { fields, at })
}

// The entries of a map, by their name and its sheet.
#[derive(Drop)]
pub struct Entries<'a> {
    pub name: Option<Pattern<'a>>,
    pub sheet: &'a MapSheet<'a>,
}

impl ReadChild for Entries<'_> {
    ghost use Rattle.readings.specs.Collection.{after_entry, entry_plan};
    ghost use Rattle.readings.proofs.Laws.Fuel.{after_entry_shortens};

    ghost plan = { λ s body v c. entry_plan body v (map_said s.sheet.now) (asked_by s.name) c };

    ghost after = { λ s c. after_entry (asked_by s.name) c };

    fn read(&self, child: &Element, out: &mut Output) -> Result<Cursor, Refusal> {
        if !is_wanted(self.name, child) {
            return Ok(child.drain().at);
        }
        let read = read_fields(child, self.sheet)?;
        read.fields.write(out)?;
        Ok(read.at)
    }

    ghost shortens = { λ s c. after_entry_shortens (asked_by s.name) c };
}
