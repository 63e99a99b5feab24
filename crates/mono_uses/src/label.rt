// Labels.
ghost use Rattle.std.specs.Prelude.{◌≡◌, ◌&&◌};
ghost use Rattle.mlc_names.specs.declared.label.Label.TheVariants.{Number};
ghost use Rattle.ir_values.specs.Values.{same_label};
ghost use Rattle.ir_mono.specs.Types.{part};
ghost use Rattle.mono_fits.specs.Asked.{given};
ghost use Rattle.mono_uses.specs.Nodes.{two_of, three_of};

use mlc_names::label::Label;

/// Whether two labels are one.
pub fn is_label(label: &Label, other: &Label) -> bool
    ensures { result ≡ same_label label.now other.now }
{
    match *label {
        Label::Number(m) => match *other {
            Label::Number(n) => m == n,
            Label::Word(_) => false,
        },
        Label::Word(x) => match *other {
            Label::Number(_) => false,
            Label::Word(y) => x.number() == y.number(),
        },
    }
}

/// The part beside a label.
pub fn part_at(labels: &[Label], parts: &[usize], label: &Label) -> Option<usize>
    ensures { result ≡ part label.now labels.now parts.now }
{
    for i in 0..labels.len() {
        if i >= parts.len() {
            return None;
        }
        let same = is_label(label, &labels[i]);
        if same {
            return Some(parts[i]);
        }
    }
    None
}

fn two_labels(labels: &[Label]) -> Option<(Label, Label)>
    ensures { result ≡ two_of labels.now }
{
    if labels.len() == 2 {
        Some((labels[0], labels[1]))
    } else {
        None
    }
}

fn three_labels(labels: &[Label]) -> Option<(Label, Label, Label)>
    ensures { result ≡ three_of labels.now }
{
    if labels.len() == 3 {
        Some((labels[0], labels[1], labels[2]))
    } else {
        None
    }
}

/// Whether labels are those of a pair.
pub fn are_pair(labels: &[Label]) -> bool
    ensures { result ≡ given (two_of labels.now) (λ p. same_label p.0 (Number 1) && same_label p.1 (Number 2)) }
{
    match two_labels(labels) {
        Some((first, second)) => {
            is_label(&first, &Label::Number(1)) && is_label(&second, &Label::Number(2))
        }
        None => false,
    }
}

/// Whether labels are those of a tuple of three.
pub fn are_triple(labels: &[Label]) -> bool
    ensures { result ≡ given (three_of labels.now) (λ p. same_label p.0 (Number 1) && (same_label p.1 (Number 2) && same_label p.2 (Number 3))) }
{
    match three_labels(labels) {
        Some((first, second, third)) => {
            is_label(&first, &Label::Number(1))
                && is_label(&second, &Label::Number(2))
                && is_label(&third, &Label::Number(3))
        }
        None => false,
    }
}
