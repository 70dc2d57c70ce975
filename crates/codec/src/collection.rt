// List and map sheets that were read, and the names that their items, entries, keys and values have.
ghost use Rattle.std.specs.Prelude.{◌≡◌};
ghost use Rattle.lists.specs.Bytes.{sameb};
ghost use Rattle.sheet.specs.Sheet.{list_of, map_of};
ghost use Rattle.sheet.specs.Names.{entry_name, item_name, key_name, named_item, value_aggregate, value_name};
ghost use Rattle.codec.specs.Collection.{list_said, map_said};
ghost use Rattle.codec.specs.Told.{is_there, told_as, told_name};

use crate::reader::{Reader, has_bit};
use sheet::Settings;

// The names of a list's member.
#[derive(Clone, Copy)]
struct Item<'a> {
    xml_name: Option<&'a [u8]>,
    member_name: Option<&'a [u8]>,
}

// A list sheet that was read. A clause speaks of what it says (`list_said`).
#[derive(Clone, Copy)]
pub struct ListSheet<'a> {
    item: Option<Item<'a>>,
    flattened: bool,
}

impl<'a> ListSheet<'a> {
    // Reads a list sheet; None where it is broken (2).
    #[tactic(auto, unfolding(sheet::specs::Sheet::list_of))]
    pub fn parse(bytes: &'a [u8]) -> Option<Self>
        ensures { list_of bytes.now ≡ told_as list_said result }
    {
        let mut reader = Reader::new(bytes);
        let bits = reader.bit_map(16)?;
        let has_member = has_bit(bits, 1);
        if !has_member && (has_bit(bits, 4) || has_bit(bits, 8)) {
            return None;
        }
        let xml_name = reader.name_if(has_bit(bits, 4))?;
        let member_name = reader.name_if(has_bit(bits, 8))?;
        if !reader.rest().is_empty() {
            return None;
        }
        let item = if has_member {
            Some(Item {
                xml_name,
                member_name,
            })
        } else {
            None
        };
        Some(ListSheet {
            item,
            flattened: has_bit(bits, 2),
        })
    }

    pub fn is_flattened(&self) -> bool
        ensures { result ≡ (list_said self.now).flattened }
    {
        self.flattened // bit 1
    }

    // The name of its member, whether items must match it or not: the XML name, the member name, or `member`; None where it has no member.
    pub fn member_name(&self) -> Option<&'a [u8]>
        ensures { named_item (list_said self.now).item ≡ told_name result }
    {
        let item = self.item?;
        Some(item.xml_name.or(item.member_name).unwrap_or(b"member"))
    }

    // Whether items must match that name: the list has a member and is not flattened, and the settings are strict.
    pub fn names_items(&self, settings: Settings) -> bool
        ensures { result ≡ is_there (item_name settings (list_said self.now)) }
    {
        settings.strict_collection_element_names && self.item.is_some() && !self.flattened
    }

    // The name that items must match, `list_item_name`; None where every child is an item.
    pub fn item_name(&self, settings: Settings) -> Option<&'a [u8]>
        ensures { item_name settings (list_said self.now) ≡ told_name result }
    {
        if !self.names_items(settings) {
            return None;
        }
        self.member_name()
    }
}

// What a map's sheet says of its values.
#[derive(Clone, Copy)]
struct Value<'a> {
    xml_name: Option<&'a [u8]>,
    aggregate: bool,
}

// A map sheet that was read. A clause speaks of what it says (`map_said`).
#[derive(Clone, Copy)]
pub struct MapSheet<'a> {
    flattened: bool,
    key_xml_name: Option<&'a [u8]>,
    value: Option<Value<'a>>,
}

impl<'a> MapSheet<'a> {
    // Reads a map sheet; None where it is broken (2).
    #[tactic(auto, unfolding(sheet::specs::Sheet::map_of))]
    pub fn parse(bytes: &'a [u8]) -> Option<Self>
        ensures { map_of bytes.now ≡ told_as map_said result }
    {
        let mut reader = Reader::new(bytes);
        let bits = reader.bit_map(32)?;
        let has_value = has_bit(bits, 4);
        if !has_value && (has_bit(bits, 8) || has_bit(bits, 16)) {
            return None;
        }
        let key_xml_name = reader.name_if(has_bit(bits, 2))?;
        let xml_name = reader.name_if(has_bit(bits, 8))?;
        if !reader.rest().is_empty() {
            return None;
        }
        let value = if has_value {
            Some(Value {
                xml_name,
                aggregate: has_bit(bits, 16),
            })
        } else {
            None
        };
        Some(MapSheet {
            flattened: has_bit(bits, 1),
            key_xml_name,
            value,
        })
    }

    pub fn is_flattened(&self) -> bool
        ensures { result ≡ (map_said self.now).flattened }
    {
        self.flattened // bit 0
    }

    // Whether map entries must be named `entry`, `is_map_entry`: the map is not flattened, and the settings are strict.
    pub fn names_entries(&self, settings: Settings) -> bool
        ensures { result ≡ is_there (entry_name settings (map_said self.now)) }
    {
        settings.strict_collection_element_names && !self.flattened
    }

    // The name that map entries must match; None where every child is an entry.
    pub fn entry_name(&self, settings: Settings) -> Option<&'a [u8]>
        ensures { entry_name settings (map_said self.now) ≡ told_name result }
    {
        if !self.names_entries(settings) {
            return None;
        }
        Some(b"entry")
    }

    pub fn key_name(&self) -> &'a [u8]
        ensures { result.now ≡ key_name (map_said self.now) }
    {
        self.key_xml_name.unwrap_or(b"key")
    }

    pub fn value_name(&self) -> &'a [u8]
        ensures { result.now ≡ value_name (map_said self.now) }
    {
        match self.value {
            Some(value) => value.xml_name.unwrap_or(b"value"),
            None => b"value",
        }
    }

    // Whether values are aggregates.
    pub fn value_aggregate(&self) -> bool
        ensures { result ≡ value_aggregate (map_said self.now) }
    {
        match self.value {
            Some(value) => value.aggregate,
            None => false,
        }
    }

    // Whether a child of a map entry is its key.
    pub fn is_key(&self, local: &[u8]) -> bool
        ensures { result ≡ sameb local.now (key_name (map_said self.now)) }
    {
        slices::same(local, self.key_name())
    }

    // Whether it is its value.
    pub fn is_value(&self, local: &[u8]) -> bool
        ensures { result ≡ sameb local.now (value_name (map_said self.now)) }
    {
        slices::same(local, self.value_name())
    }
}
