// Parameters in scope.
ghost use Rattle.std.specs.Prelude.{◌≡◌, ◌↔◌, ◌++◌, true, false, IsTrue, IfOk, OnErr};
ghost use Rattle.ir_tables.specs.of_ir_poly.Types.{are_new, is_declarable};
ghost use Rattle.ir_known.specs.Knows.{marks_of};

use crate::stack::Stack;
use ir_tables::ty_core::mark::Mark;
use ir_tables::ty_core::scheme::Quantified;
use mlc_base::memory::NoMemory;

/// Whether a parameter of this mark may be declared.
fn is_for_declaration(mark: Mark) -> bool
    ensures { result ≡ is_declarable mark }
{
    match mark {
        Mark::Any | Mark::Equality => true,
        Mark::Class(_) => false,
    }
}

/// Declares parameters, where none is in scope, each is once, and none asks for a class.
pub fn declare_all(scope: &mut Stack<Mark>, parameters: &[Quantified]) -> Result<bool, NoMemory>
    ensures new { IfOk result (λ new. IsTrue new ↔ (are_new parameters.now (marks_of scope.old) ≡ true)) }
    ensures declared { IfOk result (λ new. new ≡ true → marks_of scope.new ≡ parameters.now ++ marks_of scope.old) }
    ensures kept { IfOk result (λ new. new ≡ false → scope.new ≡ scope.old) }
    ensures err { OnErr result (scope.new ≡ scope.old) }
{
    let len = scope.len();
    let mut left = parameters.len();
    while left > 0 {
        left -= 1;
        let parameter = parameters[left];
        let declarable = is_for_declaration(parameter.mark);
        if !declarable {
            scope.truncate(len);
            return Ok(false);
        }
        match scope.push(parameter.variable, parameter.mark) {
            Ok(true) => {}
            Ok(false) => {
                scope.truncate(len);
                return Ok(false);
            }
            Err(e) => {
                scope.truncate(len);
                return Err(e);
            }
        }
    }
    Ok(true)
}
