ghost use Rattle.emitted.specs.Emitted.{EmittedLaw};

/// Valid plans that have room in a budget give an image that is formed, and that does what the
/// bundle does, for every bound and every list of events. It does nothing itself.
pub fn emitted_law()
    ensures law { EmittedLaw }
{}
