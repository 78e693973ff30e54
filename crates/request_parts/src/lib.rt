//! The parts of which requests are read: members, placeholders, expressions (DynamoDB API Reference: Actions).
//!
//! A body is first held against the form of its operation (`api_form`). Behind that check its parts are read without
//! further questions: a member that is absent, or of another kind, is the empty text, the empty list, the empty item or
//! false. What is left to be refused is what only the parts together show; of that, this crate has the expressions:
//!
//! - [`read_write`], [`read_change`], [`read_projection`], [`read_page`] and [`read_query`] read the expressions of one
//!   request or action: each in order, then the first placeholder of a name that none of them uses, then the first of a
//!   value. A value that has to name a type is looked at right behind its own expression.
//! - [`Conditional`] and [`Projected`] are what requests of one item have in common with actions of a transaction.
//! - [`read_legacy`] reads what clients sent before there were expressions, as the same trees.
//! - A [`Refusal`] is told to the client, in the place of a request.
#![tactic(auto)]

mod asks;
mod expression;
mod legacy;
mod legacy_part;
mod member;
mod part;
mod placeholder;
mod refusal;

pub use asks::{
    ChangeTrees, PageTrees, QueryTrees, WriteTrees, read_change, read_page, read_projection,
    read_query, read_write,
};
pub use legacy::{LegacyKind, LegacyTrees, has_legacy, read_legacy};
pub use legacy_params::LegacyFault;
pub use legacy_part::stated_names;
pub use member::{
    copy_at, elements, flag_at, item_at, item_in, list_at, map_at, object_at, stated_copy,
    stated_flag, stated_item, stated_text, stated_whole, text_at, texts,
};
pub use part::{Conditional, Placed, Projected};
pub use placeholder::{Placeholders, pairs_of, values};
pub use refusal::{Refusal, RequestEnd};
