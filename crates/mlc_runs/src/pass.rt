// Programs of each form, and passes from one form to the next.

ghost use Rattle.std.specs.Prelude.{◌≡◌, ℕ, ◌<◌, List, IfOk, IfErr};
ghost use Rattle.mlc_runs.specs.declared.pass.PassFault.TheVariants.{Expansion, Memory};
ghost use Rattle.mlc_runs.specs.Outcome.{Outcome};
ghost use Rattle.mlc_runs.specs.Passes.{BringsNone, greatest_expansion};

use mlc_base::memory::NoMemory;
use std::alloc::{AllocError, AllocFailed, Global};
use std::marker::PhantomData;
use thiserror::Error;

/// Whether a program is well formed, if there was memory to find out.
#[derive(Clone, Copy, PartialEq, Eq, Debug)]
pub enum Check {
    Yes,
    No,
    Memory,
}

/// A form of programs.
pub trait Form: Drop {
    /// What a program does in so many turns.
    ghost meaning: { Self → ℕ → Outcome };

    /// Typed, each variable bound once, and nothing unbound.
    ghost is_well_formed: { Self → Type 0 };

    /// The identifiers of the exceptions that a program makes.
    ghost exceptions: { Self → List ℕ };

    /// The nodes of a program that is written out.
    ghost expansion: { Self → ℕ };

    fn check(&self, alloc: Global) -> Check
        ensures yes { result ≡ Check.Yes → is_well_formed self.now }
        ensures no { result ≡ Check.No → ¬ (is_well_formed self.now) };
}

/// Why a pass gives no program.
#[derive(Clone, Copy, PartialEq, Eq, Debug, Error)]
pub enum PassFault {
    #[error("expansion over 1048576 nodes")]
    Expansion,
    #[error("out of memory")]
    Memory,
}

impl From<NoMemory> for PassFault {
    ghost from_gives = { λ _ fault. fault ≡ Memory };

    fn from(_error: NoMemory) -> PassFault {
        PassFault::Memory
    }
}

impl From<AllocError> for PassFault {
    ghost from_gives = { λ _ fault. fault ≡ Memory };

    fn from(_error: AllocError) -> PassFault {
        PassFault::Memory
    }
}

impl<T: Drop> From<AllocFailed<T>> for PassFault {
    ghost from_gives = { λ _ fault. fault ≡ Memory };

    fn from(_error: AllocFailed<T>) -> PassFault {
        PassFault::Memory
    }
}

/// A step of the compiler, which keeps what a program does.
pub trait Pass<From: Form, To: Form> {
    fn pass(alloc: Global, prog: From) -> Result<To, PassFault>
        requires { From.is_well_formed prog }
        ensures well_formed { IfOk result To.is_well_formed }
        ensures same { IfOk result (λ to. (turns : ℕ) → To.meaning to turns ≡ From.meaning prog turns) }
        ensures exceptions { IfOk result (λ to. BringsNone (From.exceptions prog) (To.exceptions to)) }
        ensures size { IfOk result (λ to. To.expansion to ≡ From.expansion prog) }
        ensures too_large { IfErr result (λ fault. fault ≡ Expansion → greatest_expansion < From.expansion prog) };
}

/// One pass and then another.
pub struct Then<P, Mid, Q> {
    first: PhantomData<P>,
    mid: PhantomData<Mid>,
    second: PhantomData<Q>,
}

impl<From: Form, Mid: Form, To: Form, P: Pass<From, Mid>, Q: Pass<Mid, To>> Pass<From, To>
    for Then<P, Mid, Q> {
    fn pass(alloc: Global, prog: From) -> Result<To, PassFault> {
        let mid: Mid = P::pass(alloc, prog)?;
        Q::pass(alloc, mid)
    }
}
