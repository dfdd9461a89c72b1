//! A module that no phase refuses, as its parts: what a later room makes code of.
//!
//! Its parts were found one by one by the phases, for one module: its core form, what its names stand for, its types, and
//! what was found in its bodies. That they belong together is who makes the value's to see to: a contract says here that
//! each part comes out as it went in, and no more. How anything was found is not known here.
#![tactic(auto)]

mod checked;

pub use checked::{Checked, Found, Named, Settled};
