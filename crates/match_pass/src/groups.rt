// Numbers and names of declarations.
ghost use Rattle.std.specs.Prelude.{◌≡◌, ◌+◌, suc, IfOk};
ghost use Rattle.match_compile.specs.Compile.{funs_named};
ghost use Rattle.match_names.specs.Bindings.{names_of};
ghost use Rattle.prog_tree.specs.TreeOf.{Reading};
ghost use Rattle.general_bindings.specs.of_match_types.Views.{Keeps};
ghost use Rattle.general_bindings.specs.of_exp_blocks.Giving.{Ends};
ghost use Rattle.match_pass.specs.Declaring.{funs_read};

use general_bindings::exp_blocks::scopes::bind_each;
use general_bindings::match_types::work::Work;
use match_names::names::Names;
use mlc_base::memory::NoMemory;
use prog_tree::tree::Function;

/// The number after another.
pub fn after(number: usize) -> Result<usize, NoMemory>
    ensures { IfOk result (λ n. n ≡ suc number) }
{
    if number == usize::MAX {
        return Err(NoMemory);
    }
    Ok(number + 1)
}

/// So many new numbers. Gives the first.
pub fn reserve(work: &mut Work, count: usize) -> Result<usize, NoMemory>
    ensures is { IfOk result (λ n. n ≡ work.old.next) }
    ensures next { IfOk result (λ _. work.new.next ≡ work.old.next + count) }
    ensures keeps { IfOk result (λ _. Keeps work.old work.new) }
{
    let first = work.next;
    match first.checked_add(count) {
        Some(next) => {
            work.next = next;
            Ok(first)
        }
        None => Err(NoMemory),
    }
}

/// The functions of a group get numbers from the first on.
pub fn bind_group(
    names: &mut Names,
    functions: &[(Vec<usize>, usize, Function)],
    first: usize,
) -> Result<(), NoMemory>
    ensures ends { IfOk result (λ _. Ends names.old names.new) }
    ensures names { IfOk result (λ _. (R : Reading) → names_of names.new ≡ funs_named (funs_read functions.now R) first (names_of names.old)) }
{
    let mut left = functions.len();
    while left > 0 {
        left -= 1;
        let Some(number) = first.checked_add(left) else {
            return Err(NoMemory);
        };
        let function = &functions[left];
        bind_each(names, &function.0, number)?;
    }
    Ok(())
}
