//! A house: clock books on desks, where each pass of a desk looks at the clock or offers it a report when its turn comes.
#![tactic(auto)]

mod clock_passes;
mod closing;
mod dealing;
mod hints;
pub mod house_books;
pub mod houses;
mod laid;
pub mod opening;
mod passes;
pub mod seats;
mod shared;
mod turns;

pub use house_books::HouseBook;
pub use houses::{House, HousePass};
pub use opening::NotOpen;
pub use seats::HouseSeat;
pub use shared::{house_may_be_shared, house_may_move, pass_may_move, seat_may_move};
