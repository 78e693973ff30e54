//! What comes in and goes out: cases by hand of the crates that read and write it.
#![tactic(auto)]

#[cfg(test)]
mod helpers;
#[cfg(test)]
mod messages;
#[cfg(test)]
mod replies;
#[cfg(test)]
mod sessions;
#[cfg(test)]
mod sockets;
#[cfg(test)]
mod streams;
#[cfg(test)]
mod workers;
