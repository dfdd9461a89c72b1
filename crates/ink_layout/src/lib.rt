//! Which code each form of the core form has, as definitions: where values are held, the order of work, and what is dropped
//! at an exit. No function stands here. How such code is made, and how a code is run, is not known here.
#![tactic(auto)]
