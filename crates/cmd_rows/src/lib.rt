//! What the rows of all commands have in common: what a command gives, numbers and times in its words, strings in the
//! store, and the steps by which a row is carried out.
#![tactic(auto)]

mod given;
mod laws;
mod numbers;
mod puts;
mod replies;
mod settling;
mod stop;
mod strings;
mod times;
mod world;

pub use given::{Changes, Given};
pub use laws::{a_number_is_the_integer_that_a_word_spells, records_that_keep_to_time_and_limits};
pub use numbers::number;
pub use puts::sets;
pub use replies::{bulk_or_null, ok, word, words_from};
pub use settling::settle;
pub use stop::Stop;
pub use strings::string_at;
pub use times::{Expiry, deadline, expire_at, expire_time, set_until};
pub use world::World;
