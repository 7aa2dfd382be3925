// The dispatcher: arrivals, ticks and questions over one table, one budget rule and one tie order.
#![tactic(auto)]

pub(crate) mod arrivals;
pub mod calls;
pub(crate) mod choose;
pub mod dispatcher;
pub(crate) mod drops;
pub(crate) mod lookup;
pub mod lowest;
pub mod making;
pub mod questions;
pub(crate) mod rivalry;
pub(crate) mod rivals;
pub(crate) mod row;
pub(crate) mod state;
pub(crate) mod steps;
pub(crate) mod ticking;
pub(crate) mod turn;
