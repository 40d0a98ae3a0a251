// The table in memory: document 01, "Table in memory", over lent bytes.
//
// A caller asks `in_order` whether the bytes are a table in order, or `check_order` how many slots are free if they are, and `slots_of` once for the
// number of slots, which it hands on.
// `find`, `look_up`, `is_there` and `held_in` read, `enter`, `enter_from`, `write_slot`, `clear` and `copy` write, `read_slot` goes through the slots. A
// search tells the slot where it ended: a record is written there, and a search for the same point may go on from there when others have entered.
// Whoever knows that a table is in order asks `stands` and `slot_by_guess`, which need not search.
// The promises cite specs/: Slots, Search, Told, Order, Entries. What follows from them, for whoever stands above, is specs/MapLaws.
#![tactic(auto)]

mod bytes;
mod entries;
mod groups;
mod home;
mod order;
mod ordered;
mod probe;
mod slots;

pub use bytes::{put_word, word};
pub use entries::{enter, enter_from, held_in, is_there, look_up, look_up_request};
pub use lattice::same_point;
pub use order::{check_order, in_order};
pub use ordered::{slot_by_guess, stands};
pub use probe::{Found, find};
pub use slots::{clear, copy, read_slot, slots_of, write_slot};
