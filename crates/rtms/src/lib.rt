// The executive as a host meets it: every call, event and tick on a table that is handed in. A table that shows a break is
// refused before all else, with 35, and left as it is. A module for each section of document 01, and one for
// the pool of document 02.
#![tactic(auto)]

mod guard;
pub mod input_calls;
pub mod message_calls;
pub mod pool_calls;
pub mod semaphore_calls;
pub mod state_calls;
pub mod timer_calls;
