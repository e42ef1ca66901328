//! States by the numbers of their parts, each of which is kept once.
#![tactic(auto)]

mod forms;
mod halving;
mod kept;
mod key;
mod listing;
mod moved;
mod orders;
mod parts;
mod rank_rows;
mod ranking;
mod ranks;
mod running;
mod standings;
mod view;
mod viewed_key;

pub use forms::{Forms, forms_of};
pub use halving::number_risen;
pub use kept::{find_key, find_near, fits_client, key_of, number_at};
pub use key::{Key, NO_KEY, NONE, WIDTH};
pub use moved::{PartNumbers, moved_key, take_parts};
pub use orders::{OrderMemo, compare_keys, compare_with};
pub use parts::Parts;
pub use rank_rows::Row;
pub use ranking::{key_at, key_or_none};
pub use running::{Running, learn_running, procedure_at};
pub use standings::{Standings, standings_of};
pub use view::{View, copy_of};
pub use viewed_key::{find_view_key, key_of_view, view_fits_client};
