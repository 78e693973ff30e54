//! A try of any request, by the call that is its.
//!
//! [`try_request`] tells what a request came to: a reply; or that a table was gone that was known, and nothing was bound, so that
//! the caller tries again, and looks. `specs/Requests.antt` names what each call adds to the one history.
#![tactic(auto)]

mod call;
mod laws;
mod tried;

pub use laws::replies_are_complete;
pub use tried::try_request;
