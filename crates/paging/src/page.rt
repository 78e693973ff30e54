ghost use Rattle.std.specs.Prelude.{◌≡◌, ◌≤◌, false, []};
ghost use Rattle.std.specs.Option.{ForSome};
ghost use Rattle.paging.specs.Page.{HasOnePage};
ghost use Rattle.paging.specs.Room.{room_after, has_stopped, is_kept, is_stop, row_of, Takes, TellsFull};

use std::marker::Model;

/// The bytes that a page may have before it ends.
const PAGE_BYTES: u64 = 1_048_576;

/// A row as a page sees it.
#[derive(Clone, Copy, Drop)]
pub struct Judged {
    /// In bytes.
    pub size: u64,
    /// Whether the row passes the filter. It counts to the page either way.
    pub passes: bool,
}

/// What becomes of a row that is offered to a page: whether it is kept, and whether the page goes on.
#[derive(Clone, Copy, PartialEq, Eq, Debug, Drop)]
pub enum Offer {
    KeepGoOn,
    SkipGoOn,
    KeepStop,
    SkipStop,
}

impl Offer {
    /// Whether the row is kept.
    pub fn is_kept(self) -> bool
        ensures { result ≡ is_kept self }
    {
        matches!(self, Offer::KeepGoOn | Offer::KeepStop)
    }

    /// Whether the page ends with the row.
    pub fn is_stop(self) -> bool
        ensures { result ≡ is_stop self }
    {
        matches!(self, Offer::KeepStop | Offer::SkipStop)
    }
}

/// How far a page is filled by the rows that were offered to it.
///
/// Contracts see what it may still take: rows, where there is a limit, and bytes. A sum of sizes past the last `u64`
/// shows nowhere, since the page has ended long before.
#[derive(Drop)]
pub struct PageState {
    rows_left: Option<u64>,
    /// Those of the rows so far, or the last `u64` where they have more.
    bytes: u64,
}

impl Model for PageState {
    ghost use Rattle.std.specs.Prelude.{◌+◌, ◌-◌};
    ghost use Rattle.paging.specs.Page.{page_bytes};
    ghost use Rattle.paging.specs.Room.{Room};

    ghost Value = { Room };

    ghost view = { λ s. record { rows = s.rows_left; bytes = page_bytes + 1 - s.bytes } };
}

impl PageState {
    /// A page without rows, which ends with its `limit`-th row where there is a limit. A limit is at least 1. Takes
    /// no memory. API Reference: Query, Limit.
    pub fn start(limit: Option<u64>) -> PageState
        requires { ForSome limit (λ most. 1 ≤ most) }
        ensures room { result ≡ room_after limit [] }
        ensures going { has_stopped result ≡ false }
    {
        PageState {
            rows_left: limit,
            bytes: 0,
        }
    }

    /// Gives the page its next row, of this size in bytes, and answers whether the row is kept and whether the page
    /// ends with it. A page that has ended is offered no row. Takes no memory. API Reference: Query,
    /// LastEvaluatedKey.
    pub fn offer(&mut self, size: u64, passes_filter: bool) -> Offer
        requires { has_stopped self.old ≡ false }
        ensures row { Takes self.old self.new (row_of size passes_filter) }
        ensures kept { is_kept result ≡ passes_filter }
        ensures full { TellsFull self.new (is_stop result) }
        ensures stopped { is_stop result ≡ has_stopped self.new }
    {
        self.bytes = self.bytes.saturating_add(size);
        if let Some(left) = self.rows_left {
            self.rows_left = Some(left - 1);
        }
        match (passes_filter, self.stopped()) {
            (true, false) => Offer::KeepGoOn,
            (false, false) => Offer::SkipGoOn,
            (true, true) => Offer::KeepStop,
            (false, true) => Offer::SkipStop,
        }
    }

    /// Whether the page has ended by its limit or its size. Takes no memory.
    pub fn stopped(&self) -> bool
        ensures stopped { result ≡ has_stopped self.now }
        ensures full { TellsFull self.now result }
    {
        self.rows_left == Some(0) || self.bytes > PAGE_BYTES
    }
}

/// A list has one page. The function does nothing: its clause is the law.
pub fn one_page()
    ensures { HasOnePage }
{}
