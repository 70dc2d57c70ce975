// Sheets (01, "Sheets and entries"), settings and shape depth, as definitions: what a sheet says, and the names that a reading asks for.
// The parts of src/codec.rs and of the schema that 01 keeps. Of code the crate has settings, the depth of shapes, and what the one asks
// at the other; it rests on `lists`.
#![tactic(auto)]

ghost use Rattle.std.specs.Prelude.{◌≡◌};
ghost use Rattle.sheet.specs.Settings.{is_strict, tests_root_name, too_deep};

// The depth of shapes, the deserializer's `depth`, given with each call. The depth of elements is another counter, and another type.
#[derive(Clone, Copy)]
pub struct ShapeDepth(pub u32);

// Settings: only the maximum depth and the three flags.
#[derive(Clone, Copy)]
pub struct Settings {
    pub max_depth: u32,
    pub validate_document: bool,
    pub validate_root_name: bool,
    pub strict_collection_element_names: bool,
}

impl Settings {
    // Whether a reading at this shape depth is strict.
    pub fn is_strict(self, depth: ShapeDepth) -> bool
        ensures { result ≡ is_strict self depth }
    {
        self.validate_document && depth.0 == 0
    }

    // Whether it tests the root's name.
    pub fn tests_root_name(self, depth: ShapeDepth) -> bool
        ensures { result ≡ tests_root_name self depth }
    {
        self.validate_root_name && depth.0 == 0
    }

    // Whether it is refused: at or above the maximum.
    pub fn too_deep(self, depth: ShapeDepth) -> bool
        ensures { result ≡ too_deep self depth }
    {
        self.max_depth <= depth.0
    }
}
