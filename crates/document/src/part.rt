// Parts of a body: a piece, which is handed out as it stands, and a text, whose references are replaced as it is read.
ghost use Rattle.std.specs.Prelude.{◌≡◌, [], true, ◌+◌, ◌^◌, ◌≤◌, length};
ghost use Rattle.reference.specs.Text.{unescaped, meaning};
ghost use Rattle.document.specs.Text.{is_right};

use reference::UnescapeError;
use refusal::Refusal;

// The bytes of an element: where they start in the body, and how many they are.
#[derive(Clone, Copy)]
pub struct Piece {
    pub start: u32,
    pub len: u32,
}

// A text, its references not yet replaced, and where it begins in the body: a failing reference is told by its place there. The place is
// a 16-bit number, since no body is longer.
#[derive(Clone, Copy)]
pub struct Text<'a> {
    pub from: usize,
    pub bytes: &'a [u8],
    pub ghost small: { from + length bytes.now ≤ 2 ^ 16 },
}

// A text whose references are right, and how many bytes it comes to once they are replaced.
#[derive(Clone, Copy)]
pub struct Measured<'a> {
    pub bytes: &'a [u8],
    pub len: usize,
    pub ghost right: { is_right (unescaped bytes.now) ≡ true },
    pub ghost size: { len ≡ length (meaning (unescaped bytes.now)) },
    pub ghost short: { len ≤ 2 ^ 32 },
}

impl<'a> Text<'a> {
    ghost use Rattle.document.specs.Part.{CopyIs, measured_as, text_at};
    ghost use Rattle.document.specs.Text.{string_in};
    ghost use Rattle.refusal.specs.Answer.{onward};

    // The text of an element without any.
    pub fn empty() -> Text<'static>
        ensures { result.bytes.now ≡ [] }
    {
        Text {
            from: 0,
            bytes: b"",
        }
    }

    // Whether its references are right, and how many bytes it comes to: or 7, with the place of the first that is bad.
    pub fn measure(self) -> Result<Measured<'a>, Refusal>
        ensures { measured_as result ≡ text_at self.entry }
    {
        match unescape::measure(self.bytes) {
            Ok(len) => Ok(Measured {
                bytes: self.bytes,
                len,
            }),
            Err(bad) => Err(Refusal::bad_at(self.from, bad.at)),
        }
    }

    // Its bytes, the references replaced, at the front of a lent buffer, and how many they are: or 7, and then 10, with nothing written.
    pub fn copy(self, out: &mut [u8]) -> Result<usize, Refusal>
        ensures { CopyIs (onward (text_at self.entry) (string_in (length out.old))) out.old out.new result }
    {
        match unescape::unescape(self.bytes, out) {
            Ok(n) => Ok(n),
            Err(UnescapeError::BadReference { at }) => Err(Refusal::bad_at(self.from, at)),
            Err(UnescapeError::NoRoom) => Err(Refusal::NoRoom),
        }
    }
}

impl Measured<'_> {
    ghost use Rattle.lists.specs.Overwrite.{overwritten};

    // Its bytes, the references replaced, at the front of a buffer that has room for them.
    #[tactic(auto, using(crate::proofs::Measuring::right_room, crate::proofs::Measuring::right_filled))]
    pub fn fill(self, out: &mut [u8])
        requires { self.len ≤ length out.old }
        ensures { out.new ≡ overwritten out.old (meaning (unescaped self.entry.bytes.now)) }
    {
        unescape::fill(self.bytes, out);
    }
}
