// Rules while their expressions are elaborated.

use pat_elab::bound::TypedPat;
use vid_scope::vids::VidMark;

/// The pattern of a rule, and how much was in scope before it.
#[derive(Drop)]
pub struct RuleBegun {
    pub pat: TypedPat,
    pub mark: VidMark,
}
