//! Seconds at which nothing is expired.

ghost use Rattle.std.specs.Prelude.{◌≡◌, Some, IfSome};
ghost use Rattle.std.specs.Option.{option_copied};
ghost use Rattle.table_rows.specs.Quiet.{is_within, quiet_from, IsQuietFor, IsWatched, Narrows, NarrowsTo};

use attr_value::SharedItem;
use number38::Number;
use row_keys::{Expiry, expiry_of, is_below};
use table_schema::Schema;

/// Seconds at which nothing of what was looked at is expired.
#[derive(Clone, Copy)]
pub(crate) struct Quiet {
    /// The first of them.
    from: u64,
    /// None of them is above this number, where they have an end.
    until: Option<Number>,
}

impl Quiet {
    /// All seconds from one on: nothing was looked at yet.
    pub fn start(second: u64) -> Quiet
        ensures { result ≡ quiet_from second }
    {
        Quiet {
            from: second,
            until: None,
        }
    }

    /// Whether the second is one of them.
    pub fn has(&self, second: u64) -> bool
        ensures { result ≡ is_within self.now second }
    {
        if second < self.from {
            return false;
        }
        match &self.until {
            Some(until) => !is_below(until, second),
            None => true,
        }
    }

    /// Those of them at which this item, if there is one, is not expired either; `None` where it is at the first of them.
    pub fn with(self, schema: &Schema, item: Option<&SharedItem>) -> Option<Quiet>
        ensures narrower { IfSome result (Narrows self) }
        ensures quiet { IfSome result (λ quiet. IsQuietFor quiet schema.now (option_copied item.entry)) }
    {
        let Some(item) = item else {
            return Some(self);
        };
        match expiry_of(schema, item.item(), self.from) {
            Expiry::Expired => None,
            Expiry::Never => Some(self),
            Expiry::After(number) => Some(self.up_to(number)),
        }
    }

    /// Those of them that are not above a number.
    fn up_to(self, number: Number) -> Quiet
        ensures { NarrowsTo number self result }
    {
        match self.until {
            Some(until) => self.up_to_lesser(number, until),
            None => self.ending(number),
        }
    }

    /// The same where they end at a number already.
    fn up_to_lesser(self, number: Number, until: Number) -> Quiet
        requires { self.until ≡ Some until }
        ensures { NarrowsTo number self result }
    {
        if until < number {
            self
        } else {
            self.ending(number)
        }
    }

    /// From the same second up to a number.
    fn ending(self, number: Number) -> Quiet
        ensures { result ≡ record { from = self.from; until = Some number } }
    {
        Quiet {
            from: self.from,
            until: Some(number),
        }
    }
}

/// Seconds that were known, if there are some, at which this item, if there is one, is not expired either.
pub(crate) fn watched(
    quiet: Option<Quiet>,
    schema: &Schema,
    item: Option<&SharedItem>,
) -> Option<Quiet>
    ensures { IfSome result (IsWatched quiet schema.now (option_copied item.entry)) }
{
    match quiet {
        Some(quiet) => quiet.with(schema, item),
        None => None,
    }
}
