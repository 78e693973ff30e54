//! What points between values end. The functions do nothing: their clauses are laws.

ghost use Rattle.row_keys.specs.PointEnds.{StandAsValues, EndBehindValues, EndBehindPrefixes, EndBehindFronts};

/// Points of values stand as the values do.
pub fn stand_as_values()
    ensures { StandAsValues }
{}

/// Before the point behind a value stand the values up to it, and no other.
pub fn end_behind_values()
    ensures { EndBehindValues }
{}

/// Before the point behind a prefix stand the strings below it and those that begin with it, and no other.
pub fn end_behind_prefixes()
    ensures { EndBehindPrefixes }
{}

/// The same of binaries.
pub fn end_behind_fronts()
    ensures { EndBehindFronts }
{}
