// The names of the exceptions of the initial basis.
#![tactic(auto)]

ghost use Rattle.std.specs.Prelude.{◌≡◌, ◌↔◌, IfOk, IsTrue};
ghost use Rattle.mlc_runs.specs.Passes.{initial_exceptions};

use mlc_base::memory::NoMemory;
use mlc_names::names::Name;
use mlc_names::words::{
    BIND, CHR_EXCEPTION, DIV_EXCEPTION, MATCH, OVERFLOW, SIZE_EXCEPTION, SUBSCRIPT,
};
use std::alloc::Global;

/// The names of the exceptions of the initial basis, in their order.
pub fn initial(alloc: Global) -> Result<Vec<Name>, NoMemory>
    ensures { IfOk result (λ names. names.items ≡ initial_exceptions) }
{
    let names = vec![in alloc;
        Name::standard(MATCH),
        Name::standard(BIND),
        Name::standard(OVERFLOW),
        Name::standard(DIV_EXCEPTION),
        Name::standard(SUBSCRIPT),
        Name::standard(SIZE_EXCEPTION),
        Name::standard(CHR_EXCEPTION),
    ]?;
    Ok(names)
}

/// Whether names are those of the exceptions of the initial basis, in their order.
pub fn are_initial(names: &[Name]) -> bool
    ensures { IsTrue result ↔ (names.now ≡ initial_exceptions) }
{
    match names {
        [first, second, third, fourth, fifth, sixth, seventh] => {
            first.number() == MATCH
                && second.number() == BIND
                && third.number() == OVERFLOW
                && fourth.number() == DIV_EXCEPTION
                && fifth.number() == SUBSCRIPT
                && sixth.number() == SIZE_EXCEPTION
                && seventh.number() == CHR_EXCEPTION
        }
        _ => false,
    }
}
