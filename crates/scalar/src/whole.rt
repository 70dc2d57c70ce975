// The whole text: the text rows directly in the root of a body that passes the drain, unescaped and joined. All are measured first, so that
// a refusal has written nothing.
ghost use Rattle.std.specs.Prelude.{◌≡◌, length};
ghost use Rattle.document.specs.Part.{CopyIs, buffer_after, copied_as, length_in};
ghost use Rattle.decode.specs.Place.{At};
ghost use Rattle.readings.specs.Scalar.{whole_text};
ghost use Rattle.opening.specs.Opening.{upload_of};
ghost use Rattle.scalar.specs.Whole.{JoinRoom, NextText, text_in, texts_of};

use decode::element::Element;
use decode::place::Cursor;
use decode::view::View;
use document::Depth;
use document::part::Text;
use refusal::Refusal;
use table::{Kind, Table};

// The next text directly in an element, from a place on, which is moved past it: none where the element ends, and 6 at an inner start.
fn next_text<'a>(element: &Element<'a>, at: &mut Cursor) -> Result<Option<Text<'a>>, Refusal>
    requires { At element.now.view.count at.old }
    ensures { NextText element.now at.old at.new result }
{
    if element.start.closed {
        return Ok(None);
    }
    let mut d = at.depth.0;
    for k in at.row..element.view.count {
        let kind = element.view.kind(k);
        match kind {
            Kind::Text => {
                *at = Cursor {
                    row: k + 1,
                    depth: Depth(d),
                };
                return Ok(Some(element.view.text(k)));
            }
            Kind::Start => {
                return Err(Refusal::ElementInText);
            }
            _ => {
                d = kind.open_after(d);
                if element.ends_at(k, d) {
                    return Ok(None);
                }
            }
        }
    }
    Ok(None)
}

// How many bytes the texts of an element come to, or why they are refused.
fn measure_texts(element: &Element) -> Result<usize, Refusal>
    ensures { copied_as result ≡ length_in (texts_of element.now) }
{
    let mut at = element.at;
    let mut size = 0;
    while let Some(text) = next_text(element, &mut at)? {
        size += text.measure()?.len;
    }
    Ok(size)
}

// Writes the texts of an element, for which there is room.
fn fill_texts(element: &Element, out: &mut [u8])
    requires { JoinRoom (texts_of element.now) (length out.old) }
    ensures { out.new ≡ buffer_after (texts_of element.now) out.old }
{
    let mut at = element.at;
    let mut size = 0;
    while let Some(text) = next_text(element, &mut at).unwrap_or(None) {
        // There is room, and the references are right: both were tested as the texts were measured.
        size += text.copy(&mut out[size..]).unwrap_or(0);
    }
}

// The texts of an element, joined: measured, and written if they fit.
fn join_texts(element: &Element, out: &mut [u8]) -> Result<usize, Refusal>
    ensures { CopyIs (text_in (length out.old) (texts_of element.now)) out.old out.new result }
{
    let size = measure_texts(element)?;
    if size <= out.len() {
        fill_texts(element, out);
        Ok(size)
    } else {
        Err(Refusal::NoRoom)
    }
}

// The whole text of a body: 1, 9, 4, 6 or 10, or how many bytes were written.
pub fn whole_text(table: Table, out: &mut [u8]) -> Result<usize, Refusal>
    ensures { CopyIs (whole_text (upload_of table.entry) (length out.old)) out.old out.new result }
{
    let Some(valid) = table.check() else {
        return Err(Refusal::Table);
    };
    let view = View::new(true, valid);
    if view.ill_formed {
        return Err(Refusal::IllFormed);
    }
    match view.root() {
        Some(root) => join_texts(&root, out),
        None => Err(Refusal::NoRoot),
    }
}
