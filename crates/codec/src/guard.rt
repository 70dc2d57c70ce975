// The depth guard: one that is entered and left with each aggregate.
ghost use Rattle.std.specs.Prelude.{◌≡◌, not};
ghost use Rattle.sheet.specs.Settings.{too_deep};
ghost use Rattle.codec.specs.Guard.{entered, left};

use sheet::{Settings, ShapeDepth};

// The depth of shapes, and the settings with its maximum.
#[derive(Clone, Copy)]
pub struct Guard {
    pub settings: Settings,
    pub depth: ShapeDepth,
}

impl Guard {
    // Enters an aggregate, one deeper; false, with the guard unchanged, where the depth is at or above the maximum (3).
    pub fn enter_aggregate(&mut self) -> bool
        ensures { (result ≡ not (too_deep self.old.settings self.old.depth)) × (self.new ≡ entered self.old) }
    {
        // read here, so that a proof knows that one more than a depth below it fits
        let _max = self.settings.max_depth;
        if self.settings.too_deep(self.depth) {
            return false;
        }
        self.depth.0 += 1;
        true
    }

    // Leaves it again.
    pub fn leave_aggregate(&mut self)
        ensures { self.new ≡ left self.old }
    {
        self.depth.0 = self.depth.0.saturating_sub(1);
    }
}
