//! What every parser of an expression stands on: the words of a text, what its placeholders stand for, the
//! grammar and the machine that reads it.
//!
//! [`words`] gives a text's tokens their meaning. `specs/Grammar.antt` says which words are a sentence, and
//! `specs/Machine.antt` how they are read, word by word; that both agree is proved in `proofs/`. The parsers of
//! parts, here and in `expr_parse`, each say what they read in the machine's terms (`specs/Parses.antt`).
#![tactic(auto)]

mod copy;
mod equality;
mod front;
mod function;
mod given;
mod meaning;
mod mention;
mod parse_end;
mod path;
mod sign;
mod stop;
mod tree;
mod word;

pub use front::{behind_comma, called, fewer, held, value};
pub use function::{Function, function_of};
pub use given::{Given, NamePair, Used};
pub use meaning::{Missing, Reading, words};
pub use mention::Mention;
pub use parse_end::{Clause, ParseEnd};
pub use path::{document_path, path_list};
pub use sign::{and, close_bracket, close_parenthesis, comma, equal, open_parenthesis, stuck};
pub use stop::Stop;
pub use tree::{Comparison, Condition, Operand, PathValue, Paths, Section, SetTo, Sum, Term};
pub use word::Word;
