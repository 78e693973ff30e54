//! Pages: which rows of a list Query and Scan answer at a time.
//!
//! A page takes rows in order and ends with the row that makes it full: with as many rows as its limit, or with
//! more than 1,048,576 bytes. It counts rows whether they pass the filter or not, and shows those that do. The key
//! of its last row is told exactly where it ended so, and not where the rows ended. [`PageState`] is offered the
//! rows one by one.
//!
//! The rows come from a [`Walk`], a list of rows in order that gives one row a step, such as a [`MapRange`] of an
//! ordered map. [`Steps`] counts the steps for contracts.
//!
//! `specs/Page.antt` says what the page of a list is, and `specs/Rows.antt` which rows a walk meets. API Reference:
//! Query, Scan. Developer Guide: Paginating table query results.
#![tactic(auto)]

mod page;
mod range;
mod steps;
mod walk;

pub use page::{Judged, Offer, PageState, one_page};
pub use range::MapRange;
pub use steps::Steps;
pub use walk::Walk;
