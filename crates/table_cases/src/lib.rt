//! Real tables: their cells, by a history of one table and its index that was worked out by hand; and items that expire.
#![tactic(auto)]

#[cfg(test)]
mod cells;
#[cfg(test)]
mod expirations;
#[cfg(test)]
mod expiry;
#[cfg(test)]
mod histories;
#[cfg(test)]
mod parts;
