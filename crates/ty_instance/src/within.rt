// Instances in the table of a substitution.
ghost use Rattle.std.specs.Prelude.{◌≡◌, ◌<◌, ◌++◌, Some, length, slice_get, take, IfOk, OnErr};
ghost use Rattle.ty_solve.specs.of_ty_core.Statics.{replace};
ghost use Rattle.ty_solve.specs.of_ty_table.TypeAt.{type_at, AllBelow};
ghost use Rattle.ty_solve.specs.SlotsOf.{seen};
ghost use Rattle.ty_instance.specs.Images.{image_at};

use crate::instantiate::instantiate;
use mlc_base::memory::NoMemory;
use std::alloc::Global;
use ty_solve::subst::Subst;

/// The body of a scheme with the types `images` put for its parameters. What is said of variables stays.
pub fn instantiate_in(
    alloc: Global,
    s: &mut Subst,
    body: usize,
    images: &[usize],
) -> Result<usize, NoMemory>
    requires body { body < length s.old.types }
    requires images { AllBelow (length s.old.types) images.now }
    ensures is { IfOk result (λ r. slice_get s.new.types r ≡ Some (replace (image_at s.old.types images.now) (type_at s.old.types body))) }
    ensures earlier_stay { take (length s.old.types) s.new.types ≡ s.old.types }
    ensures slots { s.new.slots.items ≡ s.old.slots.items }
    ensures says { seen s.new.types s.new.slots.items ≡ seen s.old.types s.old.slots.items }
{
    instantiate(alloc, &mut s.types, body, images)
}
