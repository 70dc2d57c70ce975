// "Flattened groups are to come by rising member index", and room is "tested group by group" (change request 2): from the children that
// were kept.
ghost use Rattle.std.specs.Prelude.{◌^◌, ◌≤◌, ◌<◌, length};
ghost use Rattle.document.specs.Scope.{children_of};
ghost use Rattle.sheet.specs.Names.{members_of};
ghost use Rattle.readings.specs.Plan.{one_by_one};
ghost use Rattle.readings.specs.Structure.{group_plan};
ghost use Rattle.codec.specs.Structure.{structure_said};
ghost use Rattle.decode.specs.View.{view_of};
ghost use Rattle.decode.specs.Element.{child_of};
ghost use Rattle.output.specs.Kept.{Inside};
ghost use Rattle.output.specs.Held.{Does};
ghost use Rattle.opening.specs.Opening.{body_of};
ghost use Rattle.structure.specs.Children.{KeepsAll};
ghost use Rattle.structure.specs.Groups.{flat_plan, kept_from};

use codec::structure::StructureSheet;
use decode::element::Element;
use output::Output;
use output::kept::{Kept, has_group};
use refusal::Refusal;

// Writes the groups of n members one after another, to the first that does not fit.
pub fn write_kept(body: &[u8], kept: &[Kept], n: usize, out: &mut Output) -> Result<(), Refusal>
    requires inside { Inside body.now kept.now }
    requires kept_len_bound { length kept.now < 2 ^ 32 }
    requires n_bound { n ≤ 2 ^ 32 }
    ensures { Does (one_by_one (flat_plan body.now kept.now) (kept_from kept.now 0 n)) out.old out.new result }
{
    for i in 0..n {
        let member = i as u32;
        if has_group(kept, member) {
            out.write_group(body, kept, member)?;
        }
    }
    Ok(())
}

// Writes those of a sheet's members, of what was kept of a root.
pub fn write_groups(
    root: &Element,
    sheet: &StructureSheet,
    kept: &[Kept],
    out: &mut Output,
) -> Result<(), Refusal>
    requires { KeepsAll root.now (structure_said sheet.now) kept.now }
    ensures { Does (one_by_one (group_plan (body_of root.now) (view_of root.now.view) (structure_said sheet.now)
        (children_of (child_of root.now))) (members_of (structure_said sheet.now))) out.old out.new result }
{
    write_kept(root.view.table.body, kept, sheet.len(), out)
}
