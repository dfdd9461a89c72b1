//! Laws of the code machine on what processes own: what each step and each reply leaves of a process, and that in no run
//! two parts have an object of one name.
//!
//! Only the machine's definitions are spoken of. How heaps, messages and futures are kept is not known here.
#![tactic(auto)]

mod laws;

pub use laws::{
    cuts_are_trees, each_process_has_mail, names_stand_apart, replies_bring_other_names,
    reply_leaves, spawns_start, step_leaves, steps_are_counted, trees_start, turn_keeps_apart,
};
