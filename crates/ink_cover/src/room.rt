//! What the phase reads.

use ink_module::CoreModule;
use ink_names::Tables;
use ink_signatures::Signatures;
use std::alloc::Global;

/// What the phase reads and does not change.
#[derive(Clone, Copy)]
pub(crate) struct Room<'a> {
    pub alloc: Global,
    pub core: &'a CoreModule,
    pub tables: &'a Tables,
    pub signatures: &'a Signatures,
}
