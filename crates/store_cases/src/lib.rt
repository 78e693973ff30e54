//! What a server keeps, and the turns in which it changes: what no clause says.
#![tactic(auto)]

#[cfg(test)]
mod tokens;
#[cfg(test)]
mod turns;
