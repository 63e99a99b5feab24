// Loops, in two versions.

use crate::{by_hand, emitted};
use ir_code::image::Image;
use ir_code::instr::Instr;
use ssa_words::words::Op;
use std::alloc::Global;

/// A loop as the code's maker gets it from a good compiler, in SSA form, and as the machine's best code.
#[derive(Clone, Copy)]
pub struct Loop {
    pub name: &'static str,
    pub ssa: &'static [Op],
    pub by_hand: &'static [Instr],
}

#[derive(Clone, Copy)]
pub enum Version {
    Emitted,
    ByHand,
}

impl Loop {
    /// The image of a version that makes so many turns.
    pub fn image(&self, alloc: Global, version: Version, turns: u16) -> anyhow::Result<Image> {
        match version {
            Version::Emitted => emitted::make(alloc, turns, self.ssa),
            Version::ByHand => by_hand::make(alloc, turns, self.by_hand),
        }
    }
}
