//! Lets threads draw numbers, each once, and share pieces of work by them.
//!
//! `Tickets` gives out the numbers below a limit from one atomic word: a seat draws by a single
//! `fetch_add`, and waits for nobody. Once every seat got `None`, `close` proves that the numbers
//! below the limit were drawn, each once. `draw_all` lets threads draw the pieces of some work, so
//! that none is idle while another has pieces left. Its results are in the order of the pieces,
//! whichever thread made them and whenever: they are those of one thread.
#![tactic(auto)]

mod drawing;
mod tickets;

pub use drawing::{Drawing, WorkPieces, draw_all};
pub use tickets::{TicketSeat, Tickets};
