// Rules while they are made.

use prog_tree::tree::Rule;

/// The types of what rules take and of what they give, and those that were made so far.
#[derive(Drop)]
pub struct RulesMade {
    pub domain: usize,
    pub range: usize,
    pub rules: Vec<Rule>,
}
