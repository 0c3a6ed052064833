use crate::shared::Shared;
use chew_cell::Pass;

/// The pass of the keeper, whose number is 0.
pub type KeeperPass = Pass;

/// A dictionary that is shared, and all its passes, which have seen nothing.
#[derive(Drop)]
pub struct Opened {
    /// The dictionary.
    pub shared: Shared,
    /// The keeper's pass.
    pub keeper: KeeperPass,
    /// The contexts' passes, in the order of their numbers, from 1 on.
    pub passes: Vec<Pass>,
}
