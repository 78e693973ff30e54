//! The words of the command line: which of the program's commands they state, and with which values.
//!
//! [`command`] reads the words behind the program's name. The first is a command, and behind it stand the command's
//! options, each at most once and in any order, as `--name value` or `--name=value`. A value is 1 to 7 decimal digits,
//! within the option's range, and an option that is not given has its default.
//!
//! | Command | Option | Range | Default |
//! |---|---|---|---|
//! | `stdio` | `--partitions` | 1 to 64 | 16 |
//! | `serve` | `--port` | 1 to 65535 | 8000 |
//! | | `--partitions` | 1 to 64 | 16 |
//! | | `--workers` | 1 to 62 | 8 |
//! | `load` | `--start` | 0 to 9999999 | 1 |
//! | | `--clients` | 1 to 16 | 4 |
//! | | `--count` | 0 to 100000 | 1000 |
//! | | `--partitions` | 1 to 64 | 16 |
//!
//! All other words are refused, those that ask for help or for a version among them. The options are found by the crate
//! `clap`. What the words state is said in `specs/States.antt` without it.
#![tactic(auto)]

mod application;
mod mode;
mod number;
mod reading;
mod setting;
mod words;

pub use reading::command;
pub use words::{Command, WordsEnd};
