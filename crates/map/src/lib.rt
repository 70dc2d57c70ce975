// The map of a root: its entries one after another, each written once its fields are read; "9 last". What is answered is defined in
// `readings` (Collection.antt); the crate rests on `list` for the children of the root, on `decode` for the elements, on `codec` for the
// sheet and on `output` for what is written.
#![tactic(auto)]

ghost use Rattle.readings.specs.Collection.{entries_plan};
ghost use Rattle.codec.specs.Collection.{map_said};
ghost use Rattle.output.specs.Held.{Does, Whole};
ghost use Rattle.opening.specs.Opening.{asked_of, body_of};

pub mod entries;
pub mod fields;

use crate::entries::Entries;
use codec::collection::MapSheet;
use decode::element::Element;
use list::children::{pattern_of, read_children};
use output::Output;
use refusal::Refusal;
use sheet::Settings;

// The map of a root that was found, by its sheet: "The same, with 6, 7, 8, 9 as met in a key or value".
pub fn read_map(
    root: &Element,
    sheet: &MapSheet,
    settings: Settings,
    out: &mut Output,
) -> Result<(), Refusal>
    ensures does { Does (entries_plan (body_of root.now) settings (asked_of (map_said sheet.now) root.now)) out.old out.new result }
    ensures whole { Whole (entries_plan (body_of root.now) settings (asked_of (map_said sheet.now) root.now)) out.old out.new result }
{
    let name = pattern_of(sheet.entry_name(settings));
    read_children(root, &Entries { name, sheet }, out)
}
