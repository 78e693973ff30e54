//! Requests over cells of real tables, read from their bodies and told as bodies.
#![tactic(auto)]

#[cfg(test)]
mod calls;
#[cfg(test)]
mod expiry;
#[cfg(test)]
mod held;
#[cfg(test)]
mod late;
#[cfg(test)]
mod left;
#[cfg(test)]
mod limit;
#[cfg(test)]
mod sessions;
#[cfg(test)]
mod stops;
