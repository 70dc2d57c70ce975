// "attribute members in sheet order".
ghost use Rattle.std.specs.Prelude.{◌<◌, ◌^◌};
ghost use Rattle.sheet.specs.Names.{members_of};
ghost use Rattle.readings.specs.Plan.{one_by_one};
ghost use Rattle.readings.specs.Structure.{attribute_plan};
ghost use Rattle.codec.specs.Structure.{member_said, structure_said};
ghost use Rattle.decode.specs.Element.{child_of};
ghost use Rattle.output.specs.Held.{Does};
ghost use Rattle.structure.specs.Structure.{indexed_as};

use codec::members::Member;
use codec::structure::StructureSheet;
use decode::element::Element;
use output::Output;
use refusal::Refusal;
use table::patterns::Pattern;

// Writes the attribute that a member asks for; other members have none.
fn write_attribute(
    root: &Element,
    index: u32,
    member: &Member,
    out: &mut Output,
) -> Result<(), Refusal>
    ensures { Does (attribute_plan (child_of root.now).start.attributes (indexed_as index (member_said member.now)))
        out.old out.new result }
{
    if member.is_attribute() {
        let pattern = Pattern::new(member.attribute_name());
        if let Some(text) = root.attr(pattern) {
            return out.write_text(index, text);
        }
    }
    Ok(())
}

// Writes the attributes of a root, in the order of the members that ask for them.
pub fn write_attributes(
    root: &Element,
    sheet: &StructureSheet,
    out: &mut Output,
) -> Result<(), Refusal>
    ensures { Does (one_by_one (attribute_plan (child_of root.now).start.attributes) (members_of (structure_said sheet.now)))
        out.old out.new result }
{
    for i in 0..sheet.len() {
        write_attribute(root, i as u32, &sheet.member(i), out)?;
    }
    Ok(())
}
