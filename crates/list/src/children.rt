// The children of a root, one after another.
ghost use Rattle.std.specs.Prelude.{ℕ, ◌≡◌, ◌≤◌, List, length};
ghost use Rattle.document.specs.View.{View as Seen};
ghost use Rattle.document.specs.Reader.{Reader};
ghost use Rattle.document.specs.Scope.{Child};
ghost use Rattle.readings.specs.Plan.{Plan};
ghost use Rattle.decode.specs.View.{view_of};
ghost use Rattle.decode.specs.Element.{child_of};
ghost use Rattle.output.specs.Held.{Does};
ghost use Rattle.codec.specs.Told.{told_name};
ghost use Rattle.opening.specs.Opening.{body_of};
ghost use Rattle.opening.specs.Wanted.{asked_by};
ghost use Rattle.list.specs.Children.{ChildRead, all_plan, each_plan};

use decode::element::Element;
use decode::place::Cursor;
use output::Output;
use refusal::Refusal;
use table::patterns::Pattern;

// What a reading makes of a child of the root. Clauses see the definition's plan for a child in a body and a view, and where the reader
// stands after it.
pub trait ReadChild {
    ghost plan: { Self → List ℕ → Seen → Child → Plan };

    ghost after: { Self → Child → Reader };

    // Writes a child, and says where the reader stands then.
    fn read(&self, child: &Element, out: &mut Output) -> Result<Cursor, Refusal>
        ensures { ChildRead (plan self.now) (after self.now) child.now out.old out.new result };

    // the reader goes on: there are no more tokens left than in the child's content
    ghost shortens: { (s : Self) (c : Child) → length (after s c).rest ≤ length c.inner.rest };
}

// The pattern of the name that children must have, if they must: its colon is looked for once, before the first child.
pub fn pattern_of<'a>(name: Option<&'a [u8]>) -> Option<Pattern<'a>>
    ensures { asked_by result ≡ told_name name.entry }
{
    match name {
        Some(name) => Some(Pattern::new(name)),
        None => None,
    }
}

// Reads the children of a root, in body order, to the first that is refused.
fn read_each<S: ReadChild>(root: &Element, step: &S, out: &mut Output) -> Result<(), Refusal>
    ensures { Does (each_plan (S.plan step.now (body_of root.now) (view_of root.now.view)) (S.after step.now) (child_of root.now))
        out.old out.new result }
{
    let mut scope = *root;
    while let Ok(child) = scope.next_tag() {
        let at = step.read(&child, out)?;
        scope = root.from_place(at);
    }
    Ok(())
}

// The children of a root, "9 last".
pub fn read_children<S: ReadChild>(
    root: &Element,
    step: &S,
    out: &mut Output,
) -> Result<(), Refusal>
    ensures { Does (all_plan (S.plan step.now) (S.after step.now) root.now) out.old out.new result }
{
    let got = read_each(root, step, out);
    opening::tested(root.view.ill_formed, got)
}
