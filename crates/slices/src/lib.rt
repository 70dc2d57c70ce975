// Functions on slices of bytes: whether two are the same, where a byte stands next, and a copy into a place.
// What they answer is defined in `lists`, on which the crate rests, as on the kit's `memchr`.
#![tactic(auto)]

ghost use Rattle.std.specs.Prelude.{◌≡◌, ◌+◌, ◌≤◌, length};
ghost use Rattle.lists.specs.Bytes.{sameb};
ghost use Rattle.lists.specs.Find.{NextAt};
ghost use Rattle.lists.specs.Overwrite.{Stored};

use memchr::memchr;

// Whether two slices are the same.
#[tactic(auto, using(crate::proofs::Library::same_pointwise))]
pub fn same(a: &[u8], b: &[u8]) -> bool
    ensures { result ≡ sameb a.now b.now }
{
    a == b
}

// The first place from a place on where a byte stands, or the length.
#[tactic(auto, using(crate::proofs::Library::next_found, crate::proofs::Library::next_none))]
pub fn find(s: &[u8], from: usize, x: u8) -> usize
    requires { from ≤ length s.now }
    ensures { NextAt s.now x from result }
{
    match memchr(x, &s[from..]) {
        Some(k) => from + k,
        None => s.len(),
    }
}

// Writes a slice at a place, and answers the place after it. A loop over bytes, which compiles to a copy between parts that do not overlap:
// `copy_from_slice` compiles to one that asks a program for `memmove` too.
#[tactic(auto, using(crate::proofs::Copy::copy_laws))]
pub fn put(out: &mut [u8], at: usize, s: &[u8]) -> usize
    requires { at + length s.now ≤ length out.old }
    ensures { Stored out.old out.new at s.now result }
{
    for k in 0..s.len() {
        out[at + k] = s[k];
    }
    at + s.len()
}
