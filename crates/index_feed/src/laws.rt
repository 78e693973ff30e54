//! What holds of the feed: each law is the contract of a function without parameters.
ghost use Rattle.index_feed.specs.Feed.{Indexed, IsLawful};
ghost use Rattle.index_feed.specs.Laws.{AcksChangeOnce, DrainedIsProjection, FeedsLeaveItems, IndexRowsAreListed, IndexRowsProject, ItemsAreListed, RowsAreListed, NoneServedNoRow, RepeatsChangeNothing, WhatWaitsCompletes};

/// [Index rows project]. Each row of an index is its item's projection at a beginning of the list;
/// of an index that is not there, there is none. A cell lists the keys of all items and rows that it
/// has, and what stands at them is what pages are made of, each once and in the order of keys.
pub fn index_rows_project<K: Drop, V: Drop, C: Drop>()
    ensures rows { (I : Indexed K V C) → IsLawful I → IndexRowsProject I }
    ensures listed { (I : Indexed K V C) → IsLawful I → RowsAreListed I }
    ensures items { (I : Indexed K V C) → IsLawful I → ItemsAreListed I }
    ensures index_rows { (I : Indexed K V C) → IsLawful I → IndexRowsAreListed I }
    ensures none { (I : Indexed K V C) → IsLawful I → NoneServedNoRow I }
{}

/// [Drained is projection]. Where every outbox is empty, the rows of each index are the projection
/// of the items as they are; and before that, what waits in the outboxes is just what is missing.
pub fn drained_is_projection<K: Drop, V: Drop, C: Drop>()
    ensures drained { (I : Indexed K V C) → IsLawful I → DrainedIsProjection I }
    ensures waits { (I : Indexed K V C) → IsLawful I → WhatWaitsCompletes I }
{}

/// [Feeds harmless]. Messages of the feed that are repeated or late change nothing, and none of
/// them changes what the rows should be.
pub fn feeds_harmless<K: Drop, V: Drop, C: Drop>()
    ensures repeated { (I : Indexed K V C) → IsLawful I → RepeatsChangeNothing I }
    ensures acked { (I : Indexed K V C) → IsLawful I → AcksChangeOnce I }
    ensures items { (I : Indexed K V C) → IsLawful I → FeedsLeaveItems I }
{}
