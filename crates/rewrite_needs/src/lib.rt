// What a body's hooks need: their keys, and the temporaries that their arguments are kept in.
#![tactic(auto)]

mod needs;
mod pool;
mod site;
mod wanted;
mod watching;

pub use needs::needs_of;
pub use pool::pool_of;
pub use site::Site;
pub use watching::{Telling, Types, Watch, is_untold, watch_of};
