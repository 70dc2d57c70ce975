// UTF-8 by the Unicode Standard: whether a slice is well-formed (3.9, Table 3-7), and the bytes of a scalar value (Table 3-6).
// The definitions are in specs/ and their laws in proofs/; the crate rests on `lists` and the kit's `simdutf8`.
#![tactic(auto)]

ghost use Rattle.std.specs.Prelude.{◌≡◌, ◌+◌, ◌≤◌, ◌<◌, length};
ghost use Rattle.utf8.specs.Encode.{scalar, encode, EncodedLen};
ghost use Rattle.lists.specs.Overwrite.{Stored};
ghost use Rattle.utf8.specs.Table.{is_utf8};

// Whether a number is a Unicode scalar value.
#[tactic(auto, using(crate::proofs::Library::scalar_some))]
pub fn is_scalar(n: u32) -> bool
    ensures { result ≡ scalar n }
{
    char::from_u32(n).is_some()
}

// How many bytes `encode` gives, of a number that is a `char` or not.
#[tactic(auto, using(lists::proofs::Tests::tests), unfolding(crate::specs::Encode::encode))]
pub fn encoded_len(c: u32) -> usize
    ensures { EncodedLen c result }
{
    match c {
        0..0x80 => 1,
        0x80..0x800 => 2,
        0x800..0x10000 => 3,
        _ => 4,
    }
}

// Writes the bytes of a scalar value (or of any number below 0x110000) at a place, and answers the place after them.
#[tactic(auto, using(crate::proofs::Store::room_laws))]
pub fn put_char(out: &mut [u8], at: usize, c: u32) -> usize
    requires { (at + length (encode c) ≤ length out.old) × (c < 0x110000) }
    ensures { Stored out.old out.new at (encode c) result }
{
    match c {
        0..0x80 => {
            out[at] = c as u8;
            at + 1
        }
        0x80..0x800 => {
            out[at] = (0xc0 + c / 64) as u8;
            out[at + 1] = (0x80 + c % 64) as u8;
            at + 2
        }
        0x800..0x10000 => {
            out[at] = (0xe0 + c / 4096) as u8;
            out[at + 1] = (0x80 + c / 64 % 64) as u8;
            out[at + 2] = (0x80 + c % 64) as u8;
            at + 3
        }
        _ => {
            out[at] = (0xf0 + c / 262144) as u8;
            out[at + 1] = (0x80 + c / 4096 % 64) as u8;
            out[at + 2] = (0x80 + c / 64 % 64) as u8;
            out[at + 3] = (0x80 + c % 64) as u8;
            at + 4
        }
    }
}

// Whether a slice is well-formed UTF-8. Text is often ASCII, of which the first test is the faster one where it is short.
pub fn is_utf8(s: &[u8]) -> bool
    ensures { result ≡ is_utf8 s.now }
{
    s.is_ascii() || simdutf8::is_utf8(s)
}
