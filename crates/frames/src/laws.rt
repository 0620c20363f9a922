ghost use Rattle.frames.specs.Reading.{OneReading};

/// Bytes have one reading: their frames, and how far they were read, are the same however they were
/// cut into pieces.
pub fn one_reading()
    ensures { OneReading }
{}
