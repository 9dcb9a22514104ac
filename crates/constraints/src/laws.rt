//! What holds of the definitions of constraints. Nothing here runs.

ghost use Rattle.constraints.specs.Laws.{OneReading, OneVerdict};

/// Law: bytes are the entries of one file, or have one first fault (its kind and line), and never both.
pub fn one_reading()
    ensures { OneReading }
{}

/// Law: entries judge resources in one way: the resources pass, or one entry denies them first, or they are not allowed.
pub fn one_verdict()
    ensures { OneVerdict }
{}
