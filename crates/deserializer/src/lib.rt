// The port of src/codec/deserializer.rs: the readings by a sheet, from what is asked first to 9 at the end. What each answers is defined in
// `readings`; the crate rests on `opening` for what is asked first, and on `structure`, `list` and `map` for what is read of a root.
#![tactic(auto)]

ghost use Rattle.std.specs.Prelude.{◌≡◌, ◌/◌, ◌%◌, ◌<◌, eqb, not};
ghost use Rattle.sheet.specs.Settings.{too_deep};
ghost use Rattle.readings.specs.Call.{calling};
ghost use Rattle.readings.specs.Shape.{plan_of};
ghost use Rattle.output.specs.Call.{number_of, place_of};
ghost use Rattle.output.specs.Held.{Does};
ghost use Rattle.opening.specs.Opening.{upload_of};
ghost use Rattle.deserializer.specs.Call.{SheetCall, SheetPlace, settings_by, shape_of};
ghost use Rattle.deserializer.specs.Demand.{Demanded, defined_as};

use codec::collection::{ListSheet, MapSheet};
use codec::guard::Guard;
use codec::structure::StructureSheet;
use list::items::{read_list, read_string_list};
use map::read_map;
use output::Output;
use refusal::Refusal;
use sheet::{Settings, ShapeDepth};
use structure::read_struct;
use table::rows::Table;

// The flags that a caller gives as one number.
const VALIDATE_DOCUMENT: u32 = 1;

const VALIDATE_ROOT_NAME: u32 = 2;

const STRICT_COLLECTION_ELEMENT_NAMES: u32 = 4;

// What is read by a sheet.
#[derive(Clone, Copy)]
pub enum Shape {
    Struct,
    List,
    Map,
    StringList,
}

impl Shape {
    // The shape that a number names: 1 a structure, 2 a list, 3 a map, and any other a string list.
    pub fn of(number: u32) -> Shape
        ensures { result ≡ shape_of number }
    {
        match number {
            1 => Shape::Struct,
            2 => Shape::List,
            3 => Shape::Map,
            _ => Shape::StringList,
        }
    }
}

// What came of a reading: how many entries and how many text bytes are written, and whether it finished.
#[derive(Clone, Copy)]
pub struct Reading {
    pub count: usize,
    pub length: usize,
    pub outcome: Result<(), Refusal>,
}

impl Reading {
    // Its number: 0 where it finished.
    pub fn number(self) -> u32
        ensures { result ≡ number_of self.outcome }
    {
        match self.outcome {
            Ok(()) => 0,
            Err(why) => why.number(),
        }
    }

    // The place beside it: that of the failing `&` where the number is 7, else 0.
    pub fn place(self) -> usize
        ensures { result ≡ place_of self.outcome }
    {
        match self.outcome {
            Ok(()) => 0,
            Err(why) => why.place() as usize,
        }
    }
}

// Whether a flag stands among others.
fn has_flag(flags: u32, flag: u32) -> bool
    requires { 0 < flag }
    ensures { result ≡ eqb (flags / flag % 2) 1 }
{
    flags / flag % 2 == 1
}

// The settings that flags say; other bits are passed over.
pub fn settings_by(flags: u32, max_depth: u32) -> Settings
    ensures { result ≡ settings_by flags max_depth }
{
    Settings {
        max_depth,
        validate_document: has_flag(flags, VALIDATE_DOCUMENT),
        validate_root_name: has_flag(flags, VALIDATE_ROOT_NAME),
        strict_collection_element_names: has_flag(flags, STRICT_COLLECTION_ELEMENT_NAMES),
    }
}

// A reading where the depth guard was entered or not: past what is asked first, what is read of the root.
fn read_entered(
    shape: Shape,
    table: Table,
    bytes: &[u8],
    settings: Settings,
    depth: ShapeDepth,
    entered: bool,
    out: &mut Output,
) -> Result<(), Refusal>
    requires { entered ≡ not (too_deep settings depth) }
    ensures { Does (plan_of (defined_as shape) (upload_of table.entry) (calling bytes.now settings depth)) out.old out.new result }
{
    let strict = settings.is_strict(depth);
    match shape {
        Shape::Struct => {
            let (sheet, root) = opening::ask(table, StructureSheet::parse(bytes), entered, strict)?;
            read_struct(&root, &sheet, settings, depth, out)
        }
        Shape::List => {
            let (sheet, root) = opening::ask(table, ListSheet::parse(bytes), entered, strict)?;
            read_list(&root, &sheet, settings, out)
        }
        Shape::Map => {
            let (sheet, root) = opening::ask(table, MapSheet::parse(bytes), entered, strict)?;
            read_map(&root, &sheet, settings, out)
        }
        Shape::StringList => {
            let (sheet, root) = opening::ask(table, ListSheet::parse(bytes), entered, strict)?;
            read_string_list(&root, &sheet, settings, out)
        }
    }
}

// Reads a body by a sheet into two lent buffers: it enters by the depth guard and leaves by it, whatever came of it.
pub fn read(
    shape: Shape,
    table: Table,
    sheet: &[u8],
    settings: Settings,
    depth: ShapeDepth,
    entries: &mut [u32],
    texts: &mut [u8],
) -> Reading
    ensures reading { SheetCall shape (upload_of table.entry) (calling sheet.now settings depth)
        entries.old texts.old entries.new texts.new result.count result.length (number_of result.outcome) }
    ensures place { SheetPlace shape (upload_of table.entry) (calling sheet.now settings depth)
        entries.old texts.old (place_of result.outcome) }
    ensures demand { Demanded shape (upload_of table.entry) (calling sheet.now settings depth)
        entries.old texts.old entries.new result.count (number_of result.outcome) }
{
    let mut guard = Guard { settings, depth };
    let entered = guard.enter_aggregate();
    let mut out = Output::new(entries, texts);
    let outcome = read_entered(shape, table, sheet, settings, depth, entered, &mut out);
    if entered {
        guard.leave_aggregate();
    }
    Reading {
        count: out.count,
        length: out.used,
        outcome,
    }
}
