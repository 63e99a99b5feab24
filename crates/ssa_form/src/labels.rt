// Labels in scope, the innermost last.
ghost use Rattle.std.specs.Prelude.{◌≡◌, ◌↔◌, true, Some, map, reverse, IsTrue, slice_get};
ghost use Rattle.ssa_form.specs.Labels.{label_of, labels_of, found_label};
ghost use Rattle.ir_ssa.specs.WellFormed.{IsForward, IsLabel};

use first_known::answers::both;

/// How many values a label takes, and whether only a jump goes to it.
#[derive(Clone, Copy)]
pub struct Label {
    pub takes: usize,
    pub loops: bool,
}

/// The label of a number, counted from the innermost.
pub fn label_at(labels: &[Label], number: usize) -> Option<Label>
    ensures { found_label result ≡ slice_get (labels_of labels.now) number }
{
    if number < labels.len() {
        Some(labels[labels.len() - 1 - number])
    } else {
        None
    }
}

/// Whether a label takes so many values, and a goto may go to it.
pub fn is_forward(labels: &[Label], number: usize, count: usize) -> bool
    ensures { IsTrue result ↔ IsForward (labels_of labels.now) number count }
{
    match label_at(labels, number) {
        Some(label) => both(label.takes == count, !label.loops),
        None => false,
    }
}

/// Whether a label takes so many values.
pub fn is_label(labels: &[Label], number: usize, count: usize) -> bool
    ensures { IsTrue result ↔ IsLabel (labels_of labels.now) number count }
{
    match label_at(labels, number) {
        Some(label) => label.takes == count,
        None => false,
    }
}
