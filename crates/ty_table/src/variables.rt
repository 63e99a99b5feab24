// The variables of a type, where they are few.
ghost use Rattle.std.specs.Prelude.{◌≡◌};
ghost use Rattle.ty_table.specs.Variables.{has, longer, with_one, with_few};

/// The variables of a type, each once, if they are at most four.
#[derive(Clone, Copy)]
pub enum Few {
    Empty,
    One(usize),
    Two(usize, usize),
    Three(usize, usize, usize),
    Four(usize, usize, usize, usize),
    Many,
}

/// Whether a variable is one of these; of many, each is.
fn has(few: Few, v: usize) -> bool
    ensures { result ≡ has few v }
{
    match few {
        Few::Empty => false,
        Few::One(a) => v == a,
        Few::Two(a, b) => v == a || v == b,
        Few::Three(a, b, c) => v == a || v == b || v == c,
        Few::Four(a, b, c, d) => v == a || v == b || v == c || v == d,
        Few::Many => true,
    }
}

/// One more, which isn't one of these.
fn longer(few: Few, v: usize) -> Few
    ensures { result ≡ longer few v }
{
    match few {
        Few::Empty => Few::One(v),
        Few::One(a) => Few::Two(a, v),
        Few::Two(a, b) => Few::Three(a, b, v),
        Few::Three(a, b, c) => Few::Four(a, b, c, v),
        Few::Four(_, _, _, _) => Few::Many,
        Few::Many => Few::Many,
    }
}

/// With one more.
fn with_one(few: Few, v: usize) -> Few
    ensures { result ≡ with_one few v }
{
    if has(few, v) { few } else { longer(few, v) }
}

/// With the variables of another type.
pub fn with_few(few: Few, further: Few) -> Few
    ensures { result ≡ with_few few further }
{
    match further {
        Few::Empty => few,
        Few::One(a) => with_one(few, a),
        Few::Two(a, b) => with_one(with_one(few, a), b),
        Few::Three(a, b, c) => with_one(with_one(with_one(few, a), b), c),
        Few::Four(a, b, c, d) => with_one(with_one(with_one(with_one(few, a), b), c), d),
        Few::Many => Few::Many,
    }
}
