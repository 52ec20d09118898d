// Worked examples of the definitions.
ghost use Rattle.snow.specs.Specimens.{Specimens};

// The examples hold of the definitions; there is nothing to compute.
pub fn specimens_hold()
    ensures { Specimens }
{}
