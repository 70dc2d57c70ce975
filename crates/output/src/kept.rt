// The children of flattened aggregate members: they wait for their groups, which come after all children.
ghost use Rattle.std.specs.Prelude.{◌≡◌, ◌+◌, ◌*◌, ◌^◌, ◌≤◌, ◌<◌, length};
ghost use Rattle.lists.specs.Overwrite.{Stored};
ghost use Rattle.output.specs.Kept.{is_kept, kept_len, kept_bytes, flat, flat_len, Inside};

use document::part::Piece;

// A child that waits: its member, and its piece.
#[derive(Clone, Copy)]
pub struct Kept {
    pub member: u32,
    pub piece: Piece,
}

// Whether a child of a member is kept.
#[tactic(auto, unfolding(crate::specs::Kept::is_kept))]
pub fn has_group(kept: &[Kept], member: u32) -> bool
    ensures { result ≡ is_kept kept.now member }
{
    kept.iter().any(|k| k.member == member)
}

// How many bytes the kept children of a member have together.
fn kept_len(kept: &[Kept], member: u32) -> usize
    requires { length kept.now < 2 ^ 32 }
    ensures sum { result ≡ kept_len kept.now member }
    ensures small { result ≤ length kept.now * 2 ^ 32 }
{
    let mut n = 0;
    for k in kept {
        if k.member == member {
            n += k.piece.len as usize;
        }
    }
    n
}

// Copies them one after another, and answers the place after them.
fn put_kept(body: &[u8], kept: &[Kept], member: u32, texts: &mut [u8], from: usize) -> usize
    requires inside { Inside body.now kept.now }
    requires room { from + length (kept_bytes body.now kept.now member) ≤ length texts.old }
    ensures { Stored texts.old texts.new from (kept_bytes body.now kept.now member) result }
{
    let mut at = from;
    for k in kept {
        if k.member == member {
            let start = k.piece.start as usize;
            let end = start + k.piece.len as usize;
            at = slices::put(texts, at, &body[start..end]);
        }
    }
    at
}

// The bytes of `<__flat>` and `</__flat>`.
const FLAT_TAGS: usize = 17;

// How many bytes the group of a member has.
#[tactic(auto, unfolding(crate::specs::Kept::flat_len))]
pub fn flat_len(kept: &[Kept], member: u32) -> usize
    requires { length kept.now < 2 ^ 32 }
    ensures { result ≡ flat_len kept.now member }
{
    kept_len(kept, member) + FLAT_TAGS
}

// Copies the group of a member between its two tags, and answers the place after it.
pub fn put_flat(body: &[u8], kept: &[Kept], member: u32, texts: &mut [u8], from: usize) -> usize
    requires inside { Inside body.now kept.now }
    requires room { from + length (flat body.now kept.now member) ≤ length texts.old }
    ensures { Stored texts.old texts.new from (flat body.now kept.now member) result }
{
    let first = slices::put(texts, from, b"<__flat>");
    let last = put_kept(body, kept, member, texts, first);
    slices::put(texts, last, b"</__flat>")
}
