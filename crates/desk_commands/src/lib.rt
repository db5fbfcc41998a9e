//! One base for several clients: each has its own seat and slots, and what one of them changes of the base is brought
//! to all.
#![tactic(auto)]

mod desk;
mod kinds;
mod moving;
mod saying;
mod seats;
mod serving;
mod showing;
mod sitting;

pub use desk::Desk;
pub use serving::serve;
