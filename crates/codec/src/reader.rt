// The parts that all sheets share, read from the front of the bytes that are left: bit maps, and names, which are lent from the sheet.
ghost use Rattle.std.specs.Prelude.{◌≡◌, ◌<◌, eqb, length};
ghost use Rattle.sheet.specs.Front.{bit, bit_map, byte, name, name_if};
ghost use Rattle.codec.specs.Told.{came, itself, lent, told_name};

use std::marker::Model;

// A reader of a sheet. A clause sees the bytes that are left. A step that answers None met a broken sheet.
#[derive(Drop)]
pub struct Reader<'a> {
    rest: &'a [u8],
}

impl<'a> Model for Reader<'a> {
    ghost use Rattle.std.specs.Prelude.{ℕ, List};

    ghost Value = { List ℕ };

    ghost view = { λ a. a.rest.now };
}

// Whether the bit of a value (1, 2, 4, ..) stands in a bit map.
pub fn has_bit(bits: u8, value: u8) -> bool
    requires { 0 < value }
    ensures { result ≡ bit value bits }
{
    bits / value % 2 == 1
}

impl<'a> Reader<'a> {
    pub fn new(bytes: &'a [u8]) -> Self
        ensures { result ≡ bytes.now }
    {
        Reader { rest: bytes }
    }

    // The bytes that are left.
    pub fn rest(&self) -> &'a [u8]
        ensures { result.now ≡ self.now }
    {
        self.rest
    }

    pub fn byte(&mut self) -> Option<u8>
        ensures { byte self.old ≡ came itself result self.new }
    {
        let (b, rest) = self.rest.split_first()?;
        self.rest = rest;
        Some(*b)
    }

    // A bit map, below so many values.
    pub fn bit_map(&mut self, values: u8) -> Option<u8>
        ensures { bit_map values self.old ≡ came itself result self.new }
    {
        let bits = self.byte()?;
        if values <= bits {
            return None;
        }
        Some(bits)
    }

    pub fn name(&mut self) -> Option<&'a [u8]>
        ensures { name self.old ≡ came lent result self.new }
    {
        let len = usize::from(self.byte()?);
        if len == 0 || self.rest.len() < len {
            return None;
        }
        let (name, rest) = self.rest.split_at(len);
        self.rest = rest;
        Some(name)
    }

    // The name that is there where its bit stands.
    pub fn name_if(&mut self, stands: bool) -> Option<Option<&'a [u8]>>
        ensures { name_if stands self.old ≡ came told_name result self.new }
    {
        if !stands {
            return Some(None);
        }
        let name = self.name()?;
        Some(Some(name))
    }
}
