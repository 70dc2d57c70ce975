// Structure sheets: a sheet that was read, its root's name, and its members.
ghost use Rattle.std.specs.Prelude.{◌≡◌, ◌≤◌, ◌<◌, length, get_or, IfSome};
ghost use Rattle.sheet.specs.Sheet.{most_members, structure_of};
ghost use Rattle.sheet.specs.Names.{resolve, root_name};
ghost use Rattle.codec.specs.Told.{told_as};
ghost use Rattle.codec.specs.Members.{found_in, nameless};
ghost use Rattle.codec.specs.Structure.{member_said, structure_said};

use crate::members::{Member, Members};
use crate::reader::{Reader, has_bit};

// A structure sheet that was read. A clause speaks of what it says (`structure_said`).
#[derive(Clone, Copy)]
pub struct StructureSheet<'a> {
    xml_name: Option<&'a [u8]>,
    original_name: Option<&'a [u8]>,
    member_name: Option<&'a [u8]>,
    unwrapped: bool,
    shape_name: &'a [u8],
    members: Members<'a>,
}

impl<'a> StructureSheet<'a> {
    // Reads a structure sheet, once; None where it is broken (2).
    #[tactic(auto, unfolding(sheet::specs::Sheet::structure_of))]
    pub fn parse(bytes: &'a [u8]) -> Option<Self>
        ensures { structure_of bytes.now ≡ told_as structure_said result }
    {
        let mut reader = Reader::new(bytes);
        let bits = reader.bit_map(16)?;
        let xml_name = reader.name_if(has_bit(bits, 1))?;
        let original_name = reader.name_if(has_bit(bits, 2))?;
        let member_name = reader.name_if(has_bit(bits, 4))?;
        let shape_name = reader.name()?;
        let members = Members::read(&mut reader)?;
        if !reader.rest().is_empty() {
            return None;
        }
        Some(StructureSheet {
            xml_name,
            original_name,
            member_name,
            unwrapped: has_bit(bits, 8),
            shape_name,
            members,
        })
    }

    pub fn is_unwrapped(&self) -> bool
        ensures { result ≡ (structure_said self.now).unwrapped }
    {
        self.unwrapped
    }

    // The name that the root is expected to have: XML name, original name, member name, shape name.
    pub fn root_name(&self) -> &'a [u8]
        ensures { result.now ≡ root_name (structure_said self.now) }
    {
        self.xml_name
            .or(self.original_name)
            .or(self.member_name)
            .unwrap_or(self.shape_name)
    }

    // How many members there are.
    pub fn len(&self) -> usize
        ensures size { result ≡ length (structure_said self.now).members }
        ensures few { result ≤ most_members }
    {
        self.members.len()
    }

    // Member i; past the last, one of which the sheet says nothing.
    pub fn member(&self, i: usize) -> Member<'a>
        ensures { member_said result ≡ get_or (structure_said self.now).members i nameless }
    {
        self.members.get(i)
    }

    // The index of the first member with this name, attribute members among them.
    pub fn resolve_member(&self, local: &[u8]) -> Option<usize>
        ensures resolved { resolve (structure_said self.now) local.now ≡ found_in (structure_said self.now).members result }
        ensures within { IfSome result (λ i. i < length (structure_said self.now).members) }
        ensures few { IfSome result (λ i. i < most_members) }
    {
        self.members.resolve(local)
    }
}
