//! First ready, first come, first served: the command of the next cycle, and when there is one.

pub mod accesses;
pub mod arrivals;
pub mod choice;
mod first;
pub mod needs;
mod offers;
