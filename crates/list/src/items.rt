// The list and the string list of a root: each item a piece, or its first text.
ghost use Rattle.document.specs.Scope.{dropping};
ghost use Rattle.document.proofs.Laws.Fuel.{dropping_shortens};
ghost use Rattle.readings.specs.Collection.{items_plan, strings_plan};
ghost use Rattle.codec.specs.Collection.{list_said};
ghost use Rattle.output.specs.Held.{Does, Whole, Enters, Counted};
ghost use Rattle.opening.specs.Opening.{asked_of, body_of};
ghost use Rattle.opening.specs.Wanted.{asked_by};

use crate::children::{ReadChild, pattern_of, read_children};
use codec::collection::ListSheet;
use decode::element::Element;
use decode::place::Cursor;
use opening::is_wanted;
use output::Output;
use refusal::Refusal;
use sheet::Settings;
use table::patterns::Pattern;

// The items of a list, by their name.
#[derive(Clone, Copy)]
struct Pieces<'a> {
    name: Option<Pattern<'a>>,
}

impl ReadChild for Pieces<'_> {
    ghost use Rattle.readings.specs.Collection.{item_plan};

    ghost plan = { λ s body v c. item_plan body v (asked_by s.name) c };

    ghost after = { λ s c. dropping c };

    fn read(&self, child: &Element, out: &mut Output) -> Result<Cursor, Refusal> {
        let past = child.drain();
        if !is_wanted(self.name, child) {
            return Ok(past.at);
        }
        out.write_piece(0, child.piece(past))?;
        Ok(past.at)
    }

    ghost shortens = { λ s c. dropping_shortens c };
}

// Those of a string list.
#[derive(Clone, Copy)]
struct Texts<'a> {
    name: Option<Pattern<'a>>,
}

impl ReadChild for Texts<'_> {
    ghost use Rattle.readings.specs.Collection.{string_plan};

    ghost plan = { λ s body v c. string_plan v (asked_by s.name) c };

    ghost after = { λ s c. dropping c };

    fn read(&self, child: &Element, out: &mut Output) -> Result<Cursor, Refusal> {
        let past = child.drain();
        if !is_wanted(self.name, child) {
            return Ok(past.at);
        }
        let text = child.try_data()?;
        out.write_text(0, text)?;
        Ok(past.at)
    }

    ghost shortens = { λ s c. dropping_shortens c };
}

// The list of a root that was found, by its sheet: "10 as met; 9 last". It asks no room for texts, and leaves them as they are.
pub fn read_list(
    root: &Element,
    sheet: &ListSheet,
    settings: Settings,
    out: &mut Output,
) -> Result<(), Refusal>
    ensures does { Does (items_plan (body_of root.now) settings (asked_of (list_said sheet.now) root.now)) out.old out.new result }
    ensures enters { Counted out.old
        → Enters (items_plan (body_of root.now) settings (asked_of (list_said sheet.now) root.now)) out.old out.new result }
{
    let name = pattern_of(sheet.item_name(settings));
    read_children(root, &Pieces { name }, out)
}

// The string list of a root that was found, by its sheet: "As list, with 6 to 9 as met."
pub fn read_string_list(
    root: &Element,
    sheet: &ListSheet,
    settings: Settings,
    out: &mut Output,
) -> Result<(), Refusal>
    ensures does { Does (strings_plan settings (asked_of (list_said sheet.now) root.now)) out.old out.new result }
    ensures whole { Whole (strings_plan settings (asked_of (list_said sheet.now) root.now)) out.old out.new result }
{
    let name = pattern_of(sheet.item_name(settings));
    read_children(root, &Texts { name }, out)
}
