//! Tests of a cluster of the shop: by one thread, step by step, and by threads side by side.
#![tactic(auto)]

#[cfg(test)]
mod acts;
#[cfg(test)]
mod gates;
#[cfg(test)]
mod orders;
#[cfg(test)]
mod reads;
#[cfg(test)]
mod steps;
#[cfg(test)]
mod writes;
