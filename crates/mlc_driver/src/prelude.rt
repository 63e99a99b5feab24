// The prelude of the standard basis.

ghost use Rattle.std.specs.Prelude.{◌≡◌, map, IfOk};
ghost use Rattle.mlb_reader.specs.Broken.{fault_at};
ghost use Rattle.mlc_faults.specs.declared.code.Code.TheVariants.{NotCompiled};
ghost use Rattle.sml_lexer.specs.NameTable.{Keeps};
ghost use Rattle.mlb_reader.specs.Table.{IsTable};
ghost use Rattle.sml_tree.specs.TreeOf.{dec_of, decs_of};
ghost use Rattle.mlc_driver.specs.Fault.{IfFault, OnFault};
ghost use Rattle.mlc_driver.specs.Preludes.{IsPrelude};

use mlb_reader::basis::standard_fixities;
use mlb_reader::project::Part;
use mlb_reader::source::read_source;
use mlc_base::place::Place;
use mlc_faults::code::Code;
use mlc_faults::fault::Fault;
use mlc_faults::refused::Refused;
use mlc_names::names::Names;
use sml_tree::tree::Dec;
use std::alloc::Global;

/// What the standard basis has above the initial basis: the text of basis/prelude.sml.
pub const PRELUDE: &str =
    "(* The prelude: what the standard basis has above the initial basis, said in the language itself.
   It alone sees `Prim`, the structure of primitives; of the rest it sees the initial basis, with the fixities of the standard basis.
   What it declares outside `local` is in scope after it. Structures follow with modules.
   Functions on lists call their argument in the order of the list, unless their name says else. *)

datatype 'a option = NONE | SOME of 'a
datatype order = LESS | EQUAL | GREATER

exception Fail of string
exception Empty
exception Option

(* Truth values *)

fun not true = false
  | not false = true

fun x <> y = not (x = y)

(* References, composition, and evaluation for the effect alone *)

fun ! (ref x) = x

fun (f o g) x = f (g x)

fun a before (b : unit) = a

fun ignore _ = ()

(* Characters, strings and the output *)

val op ^ = Prim.cat
val print = Prim.print
val ord = Prim.ord
val chr = Prim.chr
val str = Prim.str
val size = Prim.size
val substring = Prim.part

(* Options *)

fun getOpt (SOME x, _) = x
  | getOpt (NONE, d) = d

fun isSome (SOME _) = true
  | isSome NONE = false

fun valOf (SOME x) = x
  | valOf NONE = raise Option

(* Lists *)

fun null [] = true
  | null _ = false

fun hd (x :: _) = x
  | hd [] = raise Empty

fun tl (_ :: r) = r
  | tl [] = raise Empty

fun foldl f a [] = a
  | foldl f a (x :: r) = foldl f (f (x, a)) r

fun length l = foldl (fn (_, n) => n + 1) 0 l

local
  (* the elements of the first list, the last one foremost, before the second *)
  fun revAppend ([], m) = m
    | revAppend (x :: r, m) = revAppend (r, x :: m)
in
  fun rev l = revAppend (l, [])

  fun l @ m = revAppend (rev l, m)
end

fun foldr f a l = foldl f a (rev l)

fun map f l = rev (foldl (fn (x, r) => f x :: r) [] l)

fun app f [] = ()
  | app f (x :: r) = (f x : unit; app f r)

(* Strings and lists. Neighbours are joined first, so each byte is copied as often as the list can be halved. *)

fun concat [] = \"\"
  | concat [s] = s
  | concat l =
      let
        fun two (a :: b :: r) = a ^ b :: two r
          | two r = r
      in
        concat (two l)
      end

fun explode s =
  let
    fun go (i, l) = if i < 0 then l else go (i - 1, Prim.sub (s, i) :: l)
  in
    go (size s - 1, [])
  end

fun implode l = concat (map str l)
";

/// That the prelude isn't read, which its tests rule out.
fn unread() -> Refused
    ensures { OnFault result (λ fault. fault ≡ fault_at NotCompiled 0 0) }
{
    Refused::Fault(Fault {
        code: Code::NotCompiled,
        place: Place { file: 0, byte: 0 },
        name: None,
    })
}

/// The prelude's declarations, as the file of this number, with the table of names that the project's files left.
pub fn read_prelude(alloc: Global, names: &mut Names, file: u32) -> Result<Vec<Dec>, Refused>
    requires { IsTable names.old }
    ensures kept { Keeps names.old names.new }
    ensures prelude { IfOk result (λ decs. IsPrelude names.old file (decs_of (map dec_of decs.items)) names.new) }
    ensures refused { IfFault result (λ fault. fault ≡ fault_at NotCompiled 0 0) }
{
    let mut fixities = standard_fixities(alloc)?;
    match read_source(alloc, names, file, PRELUDE.as_bytes(), &mut fixities) {
        Ok(Part::Source(decs)) => Ok(decs),
        Err(Refused::Memory) => Err(Refused::Memory),
        _ => Err(unread()),
    }
}
