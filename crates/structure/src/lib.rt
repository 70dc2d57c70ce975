// A structure of a root, the port of `read_struct` below its opening: 5 the root's name, then the root alone where the sheet says
// unwrapped, else attributes in sheet order, children in body order, 9, and groups by rising member index. What is written is defined in
// `readings` (Structure.antt); the crate rests on `decode` for the elements, on `codec` for the sheet and on `output` for what is written.
#![tactic(auto)]

ghost use Rattle.std.specs.Prelude.{◌*◌, ◌≤◌, length};
ghost use Rattle.readings.specs.Structure.{members_plan, opened_plan};
ghost use Rattle.codec.specs.Structure.{structure_said};
ghost use Rattle.output.specs.Held.{Does, Whole};
ghost use Rattle.opening.specs.Opening.{asked_of, body_of, opened_of};
ghost use Rattle.structure.specs.Structure.{root_or_members};

pub mod attributes;
pub mod children;
pub mod groups;
pub mod unwrapped;

use crate::attributes::write_attributes;
use crate::children::take_children;
use crate::groups::write_groups;
use crate::unwrapped::read_unwrapped;
use codec::structure::StructureSheet;
use decode::element::Element;
use document::part::Piece;
use output::Output;
use output::kept::Kept;
use refusal::Refusal;
use sheet::{Settings, ShapeDepth};
use table::patterns::Pattern;

// How many rows are few: a buffer is cleared first, and one for the children of more is cleared in more time than few are read in.
const FEW_ROWS: usize = 256;

// A child that is kept, in a buffer that holds none yet.
const NONE: Kept = Kept {
    member: 0,
    piece: Piece { start: 0, len: 0 },
};

// The members of a root, with room to keep its children: a child has two rows or more.
fn read_members(
    root: &Element,
    sheet: &StructureSheet,
    kept: &mut [Kept],
    out: &mut Output,
) -> Result<(), Refusal>
    requires { root.now.view.count ≤ length kept.old * 2 }
    ensures { Does (members_plan (body_of root.now) (structure_said sheet.now) (opened_of root.now)) out.old out.new result }
{
    write_attributes(root, sheet, out)?;
    let count = take_children(root, sheet, kept, out)?;
    if root.view.ill_formed {
        return Err(Refusal::IllFormed);
    }
    write_groups(root, sheet, &kept[..count], out)
}

// With room to keep so many children.
fn read_kept<const N: usize>(
    root: &Element,
    sheet: &StructureSheet,
    out: &mut Output,
) -> Result<(), Refusal>
    requires room { root.now.view.count ≤ N * 2 }
    requires few { N ≤ 4096 }
    ensures { Does (members_plan (body_of root.now) (structure_said sheet.now) (opened_of root.now)) out.old out.new result }
{
    let mut kept = [NONE; N];
    read_members(root, sheet, &mut kept, out)
}

// The root alone where the sheet says unwrapped, else its members.
fn read_root(root: &Element, sheet: &StructureSheet, out: &mut Output) -> Result<(), Refusal>
    ensures { Does (root_or_members (body_of root.now) (structure_said sheet.now) (opened_of root.now)) out.old out.new result }
{
    if sheet.is_unwrapped() {
        return read_unwrapped(root, sheet, out);
    }
    if root.view.count <= FEW_ROWS {
        return read_kept::<128>(root, sheet, out);
    }
    read_kept::<4096>(root, sheet, out)
}

// A structure of a root that was found, by its sheet: 5 where the root's name is tested and another; then the root alone, or its members.
pub fn read_struct(
    root: &Element,
    sheet: &StructureSheet,
    settings: Settings,
    depth: ShapeDepth,
    out: &mut Output,
) -> Result<(), Refusal>
    ensures does { Does (opened_plan (body_of root.now) settings depth (asked_of (structure_said sheet.now) root.now)) out.old out.new
        result }
    ensures whole { Whole (opened_plan (body_of root.now) settings depth (asked_of (structure_said sheet.now) root.now)) out.old out.new
        result }
{
    if settings.tests_root_name(depth) && !root.matches(Pattern::new(sheet.root_name())) {
        return Err(Refusal::RootName);
    }
    read_root(root, sheet, out)
}
