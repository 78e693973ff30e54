//! The protocol of transactions and of the index feed, and the cells that answer by it, over the shop: laws at types that they
//! hold of, histories by hand, and a walk by random numbers.
#![tactic(auto)]

#[cfg(test)]
mod asks;
#[cfg(test)]
mod cells;
#[cfg(test)]
mod choices;
#[cfg(test)]
mod courses;
#[cfg(test)]
mod expirations;
#[cfg(test)]
mod judged;
#[cfg(test)]
mod kinds;
#[cfg(test)]
mod known;
#[cfg(test)]
mod laws;
#[cfg(test)]
mod lines;
#[cfg(test)]
mod record;
#[cfg(test)]
mod replies;
#[cfg(test)]
mod seen;
#[cfg(test)]
mod shop;
#[cfg(test)]
mod tables;
#[cfg(test)]
mod transactions;
#[cfg(test)]
mod walks;
