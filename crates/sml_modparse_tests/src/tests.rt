// Texts that are read, and texts that are refused, with the place.

use crate::reading::shown;
use std::test::Fail;

// Texts, each with a letter for each of its tops (`c`ore, `s`tructure, `l`ocal, si`g`nature, `f`unctor) or with the refusal's code and place after a
// byte 1; a byte 2 ends a row.
static TABLE: &[u8] = b"\
    \x01\x02\
    ;;\x01\x02\
    structure A = struct end\x01s\x02\
    structure A = struct val x = 1 end\x01s\x02\
    structure A = B\x01s\x02\
    structure A = B.C.D\x01s\x02\
    structure A = B : sig end\x01s\x02\
    structure A : sig end = B\x01s\x02\
    structure A :> sig end = B\x01s\x02\
    structure A = B :> S\x01s\x02\
    structure A = B : S :> T\x01s\x02\
    structure A = B and C = D\x01s\x02\
    structure A : S = B and C :> T = D : U\x01s\x02\
    structure A = F (B)\x01s\x02\
    structure A = F (struct end)\x01s\x02\
    structure A = F (val x = 1)\x01s\x02\
    structure A = F ()\x01s\x02\
    structure A = F (structure Y = Z)\x01s\x02\
    structure A = F (B : S)\x01s\x02\
    structure A = F (G (B))\x01s\x02\
    structure A = F (let in B end)\x01s\x02\
    structure A = let val x = 1 in B end\x01s\x02\
    structure A = let structure C = D in C end\x01s\x02\
    structure A = struct structure B = struct structure C = D end end\x01s\x02\
    structure A = struct ; ; val x = 1 ; ; end\x01s\x02\
    structure A = struct open B C end\x01s\x02\
    structure A = F (B) : S where type t = int\x01s\x02\
    structure A = B :> S where type t = int and type u = v\x01s\x02\
    structure A = B :> S where type t = int where type u = v\x01s\x02\
    structure A = B :> S where type 'a t = 'a list and C = D\x01s\x02\
    structure A = B :> S where type ('a, 'b) X.t = 'a * 'b\x01s\x02\
    structure A = struct end : sig end :> sig end\x01s\x02\
    structure A = struct local val x = 1 in structure B = C end end\x01s\x02\
    structure A = struct infix 5 ++ val x = a ++ b end\x01s\x02\
    structure A = let infix 5 ++ in struct val x = a ++ b end end\x01s\x02\
    structure A = F (infix 5 ++ val x = a ++ b)\x01s\x02\
    structure A = F(B) and C = G(D)\x01s\x02\
    structure it = struct end\x01s\x02\
    structure S = struct fun f 0 = 1 | f n = n end\x01s\x02\
    signature S = sig end\x01g\x02\
    signature S = T\x01g\x02\
    signature S = sig end and T = S\x01g\x02\
    signature S = sig val x : int end\x01g\x02\
    signature S = sig val x : int and y : bool end\x01g\x02\
    signature S = sig val + : int * int -> int end\x01g\x02\
    signature S = sig val x : 'a -> 'a val y : {a : int, b : bool} end\x01g\x02\
    signature S = sig type t end\x01g\x02\
    signature S = sig type t and 'a u and ('a, 'b) v end\x01g\x02\
    signature S = sig type t = int end\x01g\x02\
    signature S = sig type t = int and 'a u = 'a list end\x01g\x02\
    signature S = sig eqtype t and ''a u end\x01g\x02\
    signature S = sig datatype t = A | B of int end\x01g\x02\
    signature S = sig datatype 'a t = A of 'a and u = C end\x01g\x02\
    signature S = sig datatype t = datatype A.u end\x01g\x02\
    signature S = sig exception E and F of int end\x01g\x02\
    signature S = sig structure X : T end\x01g\x02\
    signature S = sig structure X : T and Y : sig type t end end\x01g\x02\
    signature S = sig structure X : T where type t = int and Y : U end\x01g\x02\
    signature S = sig include T end\x01g\x02\
    signature S = sig include T U V end\x01g\x02\
    signature S = sig include sig type t end end\x01g\x02\
    signature S = sig include T where type t = int end\x01g\x02\
    signature S = sig type t type u sharing type t = u end\x01g\x02\
    signature S = sig type t ; type u ; sharing type t = u = X.v ; end\x01g\x02\
    signature S = sig ; ; end\x01g\x02\
    signature S = sig type t val x : t end where type t = int\x01g\x02\
    signature S = T where type t = int where type u = bool and type v = u\x01g\x02\
    signature S = T where type t = int and U = V\x01g\x02\
    signature S = sig structure A : sig structure B : sig end end end\x01g\x02\
    functor F (X : S) = X\x01f\x02\
    functor F (X : S) : T = X\x01f\x02\
    functor F (X : S) :> T = struct end\x01f\x02\
    functor F (structure X : S) = X\x01f\x02\
    functor F (structure X : S sharing type X.t = X.u) = X\x01f\x02\
    functor F () = struct end\x01f\x02\
    functor F (type t val x : t) = struct val y = x end\x01f\x02\
    functor F (X : S) = G (X) and G (Y : T) = Y\x01f\x02\
    functor F (X : S where type t = int) = X\x01f\x02\
    functor F (X : sig type t end) = struct open X end\x01f\x02\
    functor F (val x : int ; ) = struct end\x01f\x02\
    functor F (structure A : S and B : T) = A\x01f\x02\
    functor F (include S T) = struct end\x01f\x02\
    functor F (X : S) = struct infix 5 ++ end val x = ++\x01fc\x02\
    local structure S = T in val x = 1 end\x01l\x02\
    local val x = 1 in structure S = T end\x01l\x02\
    local val x = 1 in val y = x end\x01c\x02\
    local in end\x01c\x02\
    local local structure A = B in end in end\x01l\x02\
    local local val x = 1 in end in end\x01c\x02\
    local infix 5 ++ in val x = a ++ b end\x01c\x02\
    local infix 5 ++ in structure S = struct val x = a ++ b end end\x01l\x02\
    local infix 5 ++ in structure S = T end val x = ++\x01lc\x02\
    val x = 1\x01c\x02\
    val x = 1 val y = 2\x01cc\x02\
    x;\x01c\x02\
    x + 1;\x01c\x02\
    ;x;\x01c\x02\
    val x = 1 ; ; x + 1 ; val y = 2\x01ccc\x02\
    1; 2; 3;\x01ccc\x02\
    if a then b else c;\x01c\x02\
    let val x = 1 in x end;\x01c\x02\
    (1, 2); fn x => x;\x01cc\x02\
    structure A = B ; x;\x01sc\x02\
    f x; structure A = B\x01cs\x02\
    val x = 1 ; structure A = B ; y ;\x01csc\x02\
    infix 5 ++\x01\x02\
    infix 5 ++ ; a ++ b;\x01c\x02\
    structure A = struct infix 5 ++ end val x = ++\x01sc\x02\
    datatype t = A | B structure S = struct datatype t = datatype t end\x01cs\x02\
    exception E structure S = T val x = 1\x01csc\x02\
    open A B; structure C = A\x01cs\x02\
    signature S = sig end structure A : S = struct end functor F (X : S) = X\x01gsf\x02\
    signature S = sig end ; structure A = B ; functor F (X : S) = X ; val x = 1\x01gsfc\x02\
    structure\x01E11 at 9\x02\
    structure = B\x01E11 at 10\x02\
    structure A B\x01E11 at 12\x02\
    structure A =\x01E11 at 13\x02\
    structure A = end\x01E11 at 14\x02\
    structure A = struct\x01E11 at 20\x02\
    structure A = struct val x = 1 in end\x01E11 at 31\x02\
    structure A = B C\x01E11 at 16\x02\
    structure A.B = C\x01E11 at 10\x02\
    structure A : = B\x01E11 at 14\x02\
    structure A : S\x01E11 at 15\x02\
    structure A : S : T = B\x01E11 at 16\x02\
    structure A = B :\x01E11 at 17\x02\
    structure A = B : struct end\x01E11 at 18\x02\
    structure A = F (\x01E11 at 17\x02\
    structure A = F (B\x01E11 at 18\x02\
    structure A = F (B C)\x01E11 at 19\x02\
    structure A = F (x + 1)\x01E11 at 19\x02\
    structure A = A.F (B)\x01E11 at 18\x02\
    structure A = F (B) (C)\x01E11 at 20\x02\
    structure A = let val x = 1 B end\x01E11 at 30\x02\
    structure A = let B end\x01E11 at 18\x02\
    structure A = let in B\x01E11 at 22\x02\
    structure A = let in end\x01E11 at 21\x02\
    structure A = B and\x01E11 at 19\x02\
    structure A = B and = C\x01E11 at 20\x02\
    structure A = struct signature S = T end\x01E11 at 21\x02\
    structure A = struct functor F (X : S) = X end\x01E11 at 21\x02\
    structure A = struct x ; end\x01E11 at 21\x02\
    structure A = struct end end\x01E11 at 25\x02\
    structure A = B 1\x01E11 at 16\x02\
    structure A = B x ;\x01E11 at 16\x02\
    structure A = B where type t = int\x01E11 at 16\x02\
    signature\x01E11 at 9\x02\
    signature S\x01E11 at 11\x02\
    signature S =\x01E11 at 13\x02\
    signature S = struct end\x01E11 at 14\x02\
    signature S : T = U\x01E11 at 12\x02\
    signature S.T = U\x01E11 at 10\x02\
    signature S = T.U\x01E11 at 14\x02\
    signature S = sig\x01E11 at 17\x02\
    signature S = sig val x end\x01E11 at 24\x02\
    signature S = sig val x : end\x01E11 at 26\x02\
    signature S = sig val : int end\x01E11 at 22\x02\
    signature S = sig val op + : int end\x01E11 at 22\x02\
    signature S = sig val x = 1 end\x01E11 at 24\x02\
    signature S = sig type end\x01E11 at 23\x02\
    signature S = sig type t = end\x01E11 at 27\x02\
    signature S = sig type t and u = int end\x01E11 at 31\x02\
    signature S = sig type t = int and u end\x01E11 at 37\x02\
    signature S = sig eqtype t = int end\x01E11 at 27\x02\
    signature S = sig datatype t end\x01E11 at 29\x02\
    signature S = sig datatype t = end\x01E11 at 31\x02\
    signature S = sig datatype t = A of end\x01E11 at 36\x02\
    signature S = sig datatype t = datatype end\x01E11 at 40\x02\
    signature S = sig datatype t = A withtype u = int end\x01E11 at 33\x02\
    signature S = sig exception end\x01E11 at 28\x02\
    signature S = sig exception E = F end\x01E11 at 30\x02\
    signature S = sig structure end\x01E11 at 28\x02\
    signature S = sig structure X end\x01E11 at 30\x02\
    signature S = sig structure X : end\x01E11 at 32\x02\
    signature S = sig structure X = Y end\x01E11 at 30\x02\
    signature S = sig include end\x01E11 at 26\x02\
    signature S = sig include T 1 end\x01E11 at 28\x02\
    signature S = sig sharing X = Y end\x01E11 at 26\x02\
    signature S = sig sharing type t end\x01E11 at 33\x02\
    signature S = sig sharing type t = end\x01E11 at 35\x02\
    signature S = sig sharing type = t end\x01E11 at 31\x02\
    signature S = sig fun f x = 1 end\x01E11 at 18\x02\
    signature S = sig open A end\x01E11 at 18\x02\
    signature S = sig local in end end\x01E11 at 18\x02\
    signature S = sig infix 5 ++ end\x01E11 at 18\x02\
    signature S = T where\x01E11 at 21\x02\
    signature S = T where t = int\x01E11 at 22\x02\
    signature S = T where type = int\x01E11 at 27\x02\
    signature S = T where type t int\x01E11 at 29\x02\
    signature S = T where type t =\x01E11 at 30\x02\
    signature S = T where type t = int and type\x01E11 at 43\x02\
    signature S = T where type t = int and\x01E11 at 38\x02\
    signature S = T where type t = int and structure A = B\x01E11 at 39\x02\
    functor\x01E11 at 7\x02\
    functor 1\x01E11 at 8\x02\
    functor F = X\x01E11 at 10\x02\
    functor F : S = X\x01E11 at 10\x02\
    functor F (\x01E11 at 11\x02\
    functor F (X ) = X\x01E11 at 13\x02\
    functor F (X : ) = X\x01E11 at 15\x02\
    functor F (X : S = X\x01E11 at 17\x02\
    functor F (X : S) X\x01E11 at 18\x02\
    functor F (X : S) =\x01E11 at 19\x02\
    functor F (X : S) = X and\x01E11 at 25\x02\
    functor F (X : S, Y : T) = X\x01E11 at 16\x02\
    functor F (X : S) (Y : T) = X\x01E11 at 18\x02\
    functor F (structure X : S = Y) = X\x01E11 at 27\x02\
    functor F (val x ) = struct end\x01E11 at 17\x02\
    local structure A = B end\x01E11 at 22\x02\
    local structure A = B in val x = 1\x01E11 at 34\x02\
    local signature S = T in end\x01E11 at 6\x02\
    local in infix 5 ++ structure S = T end val x = ++\x01E11 at 48\x02\
    infix 5 ++ structure S = struct val x = ++ end\x01E11 at 40\x02\
    x\x01E11 at 1\x02\
    x structure A = B\x01E11 at 2\x02\
    val x = 1 ; x val y = 2\x01E11 at 14\x02\
    )\x01E11 at 0\x02\
    end\x01E11 at 0\x02\
    in\x01E11 at 0\x02\
    val x = structure A = B\x01E11 at 8\x02\
    ;; , x;\x01E11 at 3\x02";

#[test]
fn reads_what_the_grammar_says(rt: HostRuntime) -> Result<(), Fail> {
    let mut rows = 0;
    for row in TABLE.split(|b| *b == 2) {
        let mut parts = row.split(|b| *b == 1);
        if let (Some(text), Some(want)) = (parts.next(), parts.next()) {
            assert!(rt; text.len() < 1000);
            let got = shown(rt.alloc(), text)?;
            assert!(rt; got.as_bytes() == want, "row {rows}: {got}");
            assert!(rt; rows < 1000);
            rows += 1;
        }
    }
    assert_eq!(rt; rows, 221);
    Ok(())
}
