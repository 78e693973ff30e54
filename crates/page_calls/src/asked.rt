//! Which page is asked for.

ghost use Rattle.std.specs.Prelude.{◌≡◌};
ghost use Rattle.page_calls.specs.Asked.{page_asked};
ghost use Rattle.page_calls.specs.Steps.{asked_of};

use table_request::{PageRequest, Query, Scan};

/// A request for a page.
#[derive(Clone, Copy)]
pub(crate) enum Asked<'r> {
    Scan(&'r Scan),
    Query(&'r Query),
}

impl<'r> Asked<'r> {
    /// What both have in common.
    pub(crate) fn page(self) -> &'r PageRequest
        ensures { result.now ≡ page_asked (asked_of self.entry) }
    {
        match self {
            Asked::Scan(request) => &request.page,
            Asked::Query(request) => &request.page,
        }
    }
}
