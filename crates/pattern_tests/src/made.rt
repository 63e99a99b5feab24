// What is made while patterns are gone through.
use crate::spots::Spot;
use plain_tree::tree::Step;

/// The steps, and where the variables are.
#[derive(Drop)]
pub struct Made {
    pub steps: Vec<Step>,
    pub spots: Vec<Spot>,
}
