// "then children in body order": a text, a piece, or kept for its group. The rows are walked once: a child of a flattened aggregate member
// is kept as its member and its piece, from which its group is written after the children.
ghost use Rattle.std.specs.Prelude.{◌≡◌, ◌*◌, ◌≤◌, ◌<◌, length};
ghost use Rattle.sheet.specs.Names.{resolve};
ghost use Rattle.codec.specs.Structure.{member_said, structure_said};
ghost use Rattle.decode.specs.Place.{Outside};
ghost use Rattle.decode.specs.Element.{DroppedIs, child_of};
ghost use Rattle.structure.specs.Structure.{some_member};
ghost use Rattle.structure.specs.Children.{ChildrenTaken, Taken};

use codec::members::Member;
use codec::structure::StructureSheet;
use decode::element::Element;
use decode::place::{Cursor, Past};
use output::Output;
use output::kept::Kept;
use refusal::Refusal;

// Takes a child of a member: kept for its group, a piece, or a text. It answers how many are kept then.
fn take_member(
    child: &Element,
    past: Past,
    index: u32,
    member: &Member,
    kept: &mut [Kept],
    count: usize,
    out: &mut Output,
) -> Result<usize, Refusal>
    requires dropped_is { DroppedIs child.now past }
    requires room { count < length kept.old }
    ensures { Taken child.now.view (child_of child.now) (some_member index (member_said member.now))
        kept.old count kept.new out.old out.new result }
{
    if !member.is_aggregate() {
        let text = child.try_data();
        out.write_scalar(index, text)?;
        return Ok(count);
    }
    let piece = child.piece(past);
    if member.is_flattened() {
        kept[count] = Kept {
            member: index,
            piece,
        };
        return Ok(count + 1);
    }
    out.write_piece(index, piece)?;
    Ok(count)
}

// Takes a child by the member that its local name resolves to, attribute members among them; nothing where there is none.
fn take_child(
    child: &Element,
    past: Past,
    sheet: &StructureSheet,
    kept: &mut [Kept],
    count: usize,
    out: &mut Output,
) -> Result<usize, Refusal>
    requires dropped_is { DroppedIs child.now past }
    requires room { count < length kept.old }
    ensures { Taken child.now.view (child_of child.now) (resolve (structure_said sheet.now) (child_of child.now).start.name.local)
        kept.old count kept.new out.old out.new result }
{
    match sheet.resolve_member(child.local()) {
        Some(i) => take_member(child, past, i as u32, &sheet.member(i), kept, count, out),
        None => Ok(count),
    }
}

// Takes the children of a root, in body order, to the first that is refused. Each has two rows or more, so that `kept` has room for all.
// It answers how many are kept.
pub fn take_children(
    root: &Element,
    sheet: &StructureSheet,
    kept: &mut [Kept],
    out: &mut Output,
) -> Result<usize, Refusal>
    requires { root.now.view.count ≤ length kept.old * 2 }
    ensures { ChildrenTaken root.now (structure_said sheet.now) kept.new out.old out.new result }
{
    let mut scope = *root;
    let mut count = 0;
    while let Ok(child) = scope.next_tag() {
        let past = child.drain();
        count = take_child(&child, past, sheet, kept, count, out)?;
        scope = scope.from_place(past.at);
    }
    Ok(count)
}
