// The members of a structure sheet, by index and by name. Each is kept as its place in the sheet's bytes alone, and read again from there
// when it is asked for: places are small to clear and to copy, and a sheet is parsed for each reading.
ghost use Rattle.std.specs.Prelude.{◌≡◌, ◌≤◌, ◌<◌, true, length, get_or, IfSome};
ghost use Rattle.lists.specs.Tests.{pick};
ghost use Rattle.sheet.specs.Front.{bit};
ghost use Rattle.sheet.specs.Sheet.{most_members, member, member_list};
ghost use Rattle.sheet.specs.Names.{attribute_name, child_name, first_named, indexed, is_named};
ghost use Rattle.codec.specs.Told.{came, told_name};
ghost use Rattle.codec.specs.Members.{AreMembers, Stands, found_in, member_at, nameless};

use crate::reader::{Reader, has_bit};

// A member of a structure. A clause speaks of what the sheet says of it (`member_said`).
#[derive(Clone, Copy)]
pub struct Member<'a> {
    xml_name: Option<&'a [u8]>,
    member_name: Option<&'a [u8]>,
    attribute: bool,
    flattened: bool,
    aggregate: bool,
}

impl<'a> Member<'a> {
    ghost use Rattle.codec.specs.Structure.{member_said};

    // Reads a member.
    fn read(reader: &mut Reader<'a>) -> Option<Self>
        ensures { member reader.old ≡ came member_said result reader.new }
    {
        let bits = reader.bit_map(32)?;
        let xml_name = reader.name_if(has_bit(bits, 1))?;
        let member_name = reader.name_if(has_bit(bits, 2))?;
        Some(Member {
            xml_name,
            member_name,
            attribute: has_bit(bits, 4),
            flattened: has_bit(bits, 8),
            aggregate: has_bit(bits, 16),
        })
    }

    pub fn is_attribute(&self) -> bool
        ensures { result ≡ (member_said self.now).attribute }
    {
        self.attribute
    }

    pub fn is_flattened(&self) -> bool
        ensures { result ≡ (member_said self.now).flattened }
    {
        self.flattened
    }

    pub fn is_aggregate(&self) -> bool
        ensures { result ≡ (member_said self.now).aggregate }
    {
        self.aggregate
    }

    // The name of its children: the XML name, else the member name.
    pub fn child_name(&self) -> Option<&'a [u8]>
        ensures { child_name (member_said self.now) ≡ told_name result }
    {
        self.xml_name.or(self.member_name)
    }

    // The name that an attribute member asks for; empty where it has none.
    pub fn attribute_name(&self) -> &'a [u8]
        ensures { result.now ≡ attribute_name (member_said self.now) }
    {
        self.child_name().unwrap_or(b"")
    }
}

// Whether a child's local name is that of a member.
fn is_named(name: Option<&[u8]>, local: &[u8]) -> bool
    ensures { result ≡ is_named (told_name name.entry) local.now }
{
    match name {
        Some(name) => slices::same(name, local),
        None => false,
    }
}

// Whether one of the two bits of names stands.
fn has_name(bits: u8) -> bool
    ensures { result ≡ pick (bit 1 bits) true (bit 2 bits) }
{
    has_bit(bits, 1) || has_bit(bits, 2)
}

// The child name of the member at the front of some bytes. Of its two names it is the first that is there, so that it stands right after
// the bit map; no more of the member is read, since each child's name is held to those of many members.
#[tactic(auto, using(crate::proofs::Fronting::front_there, crate::proofs::Fronting::front_named, crate::proofs::Fronting::front_unnamed))]
fn front_name(bytes: &[u8]) -> Option<&[u8]>
    requires { Stands bytes.now 0 }
    ensures { child_name (member_at bytes.now 0) ≡ told_name result }
{
    if !has_name(bytes[0]) {
        return None;
    }
    let end = 2 + usize::from(bytes[1]);
    Some(&bytes[2..end])
}

// The members of a sheet, "a count 0..64": the bytes from the first of them on, and the places in these where they stand. A clause speaks
// of the members (`members_of`).
#[derive(Clone, Copy)]
pub struct Members<'a> {
    bytes: &'a [u8],
    count: usize,
    places: [u16; 64],
    ghost are: { AreMembers bytes.now places count },
}

impl<'a> Members<'a> {
    ghost use Rattle.codec.specs.Structure.{member_said, members_of};

    // Reads the count and so many members.
    #[tactic(auto, using(crate::proofs::Gathering::gathered_laws))]
    pub(crate) fn read(reader: &mut Reader<'a>) -> Option<Self>
        ensures { member_list reader.old ≡ came members_of result reader.new }
    {
        let count = usize::from(reader.byte()?);
        if 64 < count {
            return None;
        }
        let bytes = reader.rest();
        let mut places = [0u16; 64];
        for i in 0..count {
            places[i] = (bytes.len() - reader.rest().len()) as u16;
            let _member = Member::read(reader)?;
        }
        Some(Members {
            bytes,
            count,
            places,
        })
    }

    pub fn len(&self) -> usize
        ensures size { result ≡ length (members_of self.now) }
        ensures few { result ≤ most_members }
    {
        self.count
    }

    // Member i; past the last, one of which the sheet says nothing.
    pub fn get(&self, i: usize) -> Member<'a>
        ensures { member_said result ≡ get_or (members_of self.now) i nameless }
    {
        if self.count <= i {
            return Member {
                xml_name: None,
                member_name: None,
                attribute: false,
                flattened: false,
                aggregate: false,
            };
        }
        let mut reader = Reader::new(&self.bytes[usize::from(self.places[i])..]);
        let Some(member) = Member::read(&mut reader) else {
            unreachable!();
        };
        member
    }

    // The child name of member i.
    fn child_name(&self, i: usize) -> Option<&'a [u8]>
        requires { i < length (members_of self.now) }
        ensures { child_name (get_or (members_of self.now) i nameless) ≡ told_name result }
    {
        front_name(&self.bytes[usize::from(self.places[i])..])
    }

    // The index of the first member with this name, attribute members among them.
    #[tactic(auto, using(crate::proofs::Resolving::looking_laws))]
    pub fn resolve(&self, local: &[u8]) -> Option<usize>
        ensures resolved { first_named (indexed 0 (members_of self.now)) local.now ≡ found_in (members_of self.now) result }
        ensures within { IfSome result (λ i. i < length (members_of self.now)) }
        ensures few { IfSome result (λ i. i < most_members) }
    {
        for i in 0..self.len() {
            if is_named(self.child_name(i), local) {
                return Some(i);
            }
        }
        None
    }
}
