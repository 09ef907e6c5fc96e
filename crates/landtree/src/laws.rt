//! Laws of what the program does, each proved.

ghost use Rattle.landtree.specs.Checked.{ExportsWhatPasses};

/// An export that had to pass checks passed each test of the named files under its own profile.
pub fn exports_what_passes()
    ensures { ExportsWhatPasses }
{}
