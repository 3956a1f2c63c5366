//! How the jobs of a crew are worked.
use crate::hand::Hand;
use rpc_outside::Duty;
use std::alloc::Global;
use std::sync::Arc;

/// Who works the jobs of a crew.
#[derive(Drop)]
pub enum Manner<D: Duty> {
    /// The crew itself, by this duty: no hand was started.
    Alone(Arc<D, Global>),
    /// Hands that were started, and these, which were handed back.
    ByHands(Vec<Hand<D>>),
}
