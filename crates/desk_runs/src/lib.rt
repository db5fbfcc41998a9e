//! Laws of the runs of clients at a desk: what one of them sees of the others, what a refused line leaves, that filters fit, and that
//! the two desks agree.
#![tactic(auto)]

mod laws;

pub use laws::{
    clients_are_isolated, desks_agree, filters_of_all_clients_fit, refused_lines_change_nothing,
};
