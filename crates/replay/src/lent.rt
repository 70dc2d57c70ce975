// What stands before a call in what the call is lent, so that a write where none should be shows.

/// In numbers: no answer here has it for a length or a place.
pub const MARK: u32 = 77;

/// In buffers of bytes.
pub const BYTE: u8 = 0x7e;

/// The room for a text.
pub const TEXT_ROOM: usize = 512;

/// Whether a buffer begins with what was to be written, and is for the rest as it was before the call.
pub(crate) fn holds<T: PartialEq>(after: &[T], before: &[T], written: &[T]) -> bool {
    let n = written.len();
    after.starts_with(written) && after.get(n..) == before.get(n..)
}
