// Numbers of type names where many namings lie behind one another.
ghost use Rattle.std.specs.Prelude.{◌≡◌, ◌⊎◌, ◌<◌, ◌≤◌, ℕ, Some, true, false, length, IfOk, IfSome};
ghost use Rattle.elab_state.specs.Namings.{number_in, AreNamings};
ghost use Rattle.final_types.specs.Names.{AreNames, AreJumps, stamp_at, to_in, tos};

use elab_state::naming::Naming;
use mlc_base::memory::NoMemory;
use std::alloc::Global;

/// Where a naming jumps to, if anywhere, and how many namings there are on the way from it.
#[derive(Clone, Copy)]
pub struct Jump {
    pub to: Option<usize>,
    pub depth: usize,
}

/// Namings, and the jump of each.
#[derive(Clone, Copy)]
pub struct Names<'a> {
    pub namings: &'a [Naming],
    pub jumps: &'a [Jump],
}

fn jump_at(jumps: &[Jump], naming: Option<usize>) -> Jump
    ensures { result.to ≡ to_in (tos jumps.now) naming }
{
    match naming {
        Some(k) if k < jumps.len() => jumps[k],
        _ => Jump { to: None, depth: 0 },
    }
}

/// The jump of a naming behind this one: past two jumps where these pass equally many namings, or else to the naming before.
fn jump_behind(jumps: &[Jump], before: Option<usize>) -> Jump
    ensures { (result.to ≡ before) ⊎ (result.to ≡ to_in (tos jumps.now) (to_in (tos jumps.now) before)) }
{
    let near = jump_at(jumps, before);
    let far = jump_at(jumps, near.to);
    let end = jump_at(jumps, far.to);
    let passed = near.depth.saturating_sub(far.depth);
    let depth = near.depth.saturating_add(1);
    if passed == far.depth.saturating_sub(end.depth) {
        Jump { to: far.to, depth }
    } else {
        Jump { to: before, depth }
    }
}

/// The jumps of namings.
pub fn jumps_of(alloc: Global, namings: &[Naming]) -> Result<Vec<Jump>, NoMemory>
    ensures { IfOk result (λ jumps. AreNamings namings.now → AreJumps namings.now (tos jumps.items)) }
{
    let mut jumps = Vec::new(alloc);
    for i in 0..namings.len() {
        let jump = jump_behind(&jumps, namings[i].before);
        jumps.push(jump)?;
    }
    Ok(jumps)
}

impl Names<'_> {
    /// Whether a naming is of a name that isn't below a bound.
    fn is_late(&self, k: usize, bound: usize) -> bool
        ensures there { result ≡ true → k < length self.now.namings.now }
        ensures late { result ≡ true → bound ≤ stamp_at self.now.namings.now k }
        ensures early { result ≡ false → k < length self.now.namings.now → stamp_at self.now.namings.now k < bound }
    {
        if k < self.namings.len() {
            self.namings[k].stamp as usize >= bound
        } else {
            false
        }
    }

    /// A naming on the way from one of a late name: names below the bound have the same numbers in it.
    fn passed(&self, k: usize, bound: usize) -> Option<usize>
        requires names { AreNames self.now.namings.now self.now.jumps.now }
        requires there { k < length self.now.namings.now }
        requires late { bound ≤ stamp_at self.now.namings.now k }
        ensures earlier { IfSome result (λ j. j < k) }
        ensures same { (x : ℕ) → x < bound → number_in self.now.namings.now (Some k) x ≡ number_in self.now.namings.now result x }
    {
        let before = self.namings[k].before;
        match jump_at(self.jumps, Some(k)).to {
            Some(j) => {
                if self.is_late(j, bound) {
                    Some(j)
                } else {
                    before
                }
            }
            None => before,
        }
    }

    /// The naming that decides the numbers of all names below a bound.
    pub fn settled(&self, naming: Option<usize>, bound: usize) -> Option<usize>
        requires { AreNames self.now.namings.now self.now.jumps.now }
        ensures same { (x : ℕ) → x < bound → number_in self.now.namings.now naming x ≡ number_in self.now.namings.now result x }
        ensures early { IfSome result (λ k. k < length self.now.namings.now → stamp_at self.now.namings.now k < bound) }
    {
        let mut current = naming;
        while let Some(k) = current {
            if !self.is_late(k, bound) {
                return current;
            }
            current = self.passed(k, bound);
        }
        None
    }

    /// The number of a name.
    pub fn number(&self, naming: Option<usize>, stamp: u32) -> u32
        requires { AreNames self.now.namings.now self.now.jumps.now }
        ensures { result ≡ number_in self.now.namings.now naming stamp }
    {
        match self.settled(naming, stamp as usize + 1) {
            Some(k) => self.number_at(k, stamp),
            None => stamp,
        }
    }

    /// The number of a name in a naming that is not of a later one.
    fn number_at(&self, k: usize, stamp: u32) -> u32
        requires names { AreNames self.now.namings.now self.now.jumps.now }
        requires early { k < length self.now.namings.now → stamp_at self.now.namings.now k ≤ stamp }
        ensures { result ≡ number_in self.now.namings.now (Some k) stamp }
    {
        if k < self.namings.len() && self.namings[k].stamp == stamp {
            self.namings[k].number
        } else {
            stamp
        }
    }
}
