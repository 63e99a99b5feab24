// How matches and bindings go, seen by their patterns.
ghost use Rattle.std.specs.Prelude.{◌≡◌, false, true, length};
ghost use Rattle.ir_poly.specs.Prog.{Pat as Clean};
ghost use Rattle.ir_tables.specs.Tables.{parameters_at, parameters_of};
ghost use Rattle.match_compile.specs.Compile as clean;
ghost use Rattle.match_compile.specs.Compile.{shape, plain, general_shape};
ghost use Rattle.prog_tree.specs.TreeOf.{Reading};
ghost use Rattle.match_pass.specs.Reading.{rules_read};

use general_bindings::exp_steps::ways::fits_all;
use ir_tables::tables::Tables;
use prog_tree::tree::Rule;

/// Whether there is one rule, which any value fits.
pub fn is_direct(rules: &[Rule]) -> bool
    ensures is { (R : Reading) → result ≡ clean.is_direct (rules_read rules.now R) }
    ensures one { result ≡ true → length rules.now ≡ 1 }
{
    if rules.len() != 1 {
        return false;
    }
    let rule = &rules[0];
    fits_all(&rule.pat)
}

/// Whether a binding over a list of parameters is generalised.
pub fn generalises(tables: &Tables, parameters: usize, general: bool) -> bool
    ensures plain { result ≡ false → (p : Clean) → shape (parameters_at (parameters_of tables.now) parameters) general p ≡ plain }
    ensures general { result ≡ true → (p : Clean) → shape (parameters_at (parameters_of tables.now) parameters) general p ≡ general_shape p }
{
    if !general {
        return false;
    }
    !tables.parameters(parameters).is_empty()
}
