//! Pages of the rows of one table or of one of its indexes (API Reference: Query, Scan).
//!
//! A call gets the table that its request names. [`query`] and [`scan`] answer what the sequential database answers: the
//! clauses say so of the table under any number (`specs/Asked.antt`). An index that is not there is refused first; what else is
//! refused, and what is shown of rows, `page_reads` tells.
//!
//! A page costs the rows that it looks at and the logarithm of the table: a Query walks the range of its partition key
//! and sort condition alone, a Scan of a segment its places alone, and a start key is where the walk begins.
#![tactic(auto)]

mod page;
mod queries;
mod scans;

pub use queries::query;
pub use scans::scan;
