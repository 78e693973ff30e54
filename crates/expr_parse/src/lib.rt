//! Expressions as trees: conditions, projections and updates, read from their text.
//!
//! A text is read by its grammar, which `expr_words/specs/Grammar.antt` states: a tree is answered exactly
//! where the text is a sentence, and then it is that sentence's tree. Else the first fault is told,
//! in the order of [`ParseEnd`]'s page.
#![tactic(auto)]

mod argument;
mod boxes;
mod choice;
mod expression;
mod gather;
mod laws;
mod logic;
mod operand;
mod operators;
mod overlap;
mod predicate;
mod section;
mod term;
mod tree;
mod update_expression;

pub use expr_words::{
    Clause, Comparison, Condition, Given, Mention, NamePair, Operand, ParseEnd, PathValue, Paths,
    SetTo, Sum, Term, Used,
};
pub use expression::{condition, paths};
pub use laws::{one_reading, one_tree};
pub use tree::Update;
pub use update_expression::update;
