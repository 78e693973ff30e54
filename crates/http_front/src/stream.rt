//! A law of the definitions: a stream has one reading.
ghost use Rattle.http_front.specs.Streams.{OneReading};

/// However its bytes come, a stream has one list of messages and one ending. The function does
/// nothing: its clause is the law.
pub fn one_reading()
    ensures { OneReading }
{}
