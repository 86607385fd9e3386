//! Which controller of a role is its primary (P4Runtime 1.3.0, "Mastership Arbitration").
#![tactic(auto)]

mod arbiter;
mod changes;
pub mod laws;
mod numbers;
mod sessions;
mod undo;

pub use arbiter::Roles;
pub use numbers::Lanes;
pub use sessions::{NamedRole, Placed, Session, election_number, status_by};
pub use undo::UndoRoles;
