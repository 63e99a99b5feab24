// Sources of the core, and what they leave.

/// Sources that check themselves, and leave `Right`.
pub const RIGHT: [&str; 28] = [
    // A factorial, by clauses.
    "fun f 0 = 1 | f n = n * f (n - 1) \
     exception Right exception Wrong \
     val _ = raise (if f 10 = 3628800 then Right else Wrong)",
    // A tree with insertion, and what is summed over it.
    "datatype t = Leaf | Node of t * int * t \
     fun put (Leaf, x) = Node (Leaf, x, Leaf) \
       | put (Node (l, y, r), x) = if x < y then Node (put (l, x), y, r) else Node (l, y, put (r, x)) \
     fun sum Leaf = 0 | sum (Node (l, x, r)) = sum l + x + sum r \
     fun all [] t = t | all (x :: xs) t = all xs (put (t, x)) \
     exception Right exception Wrong \
     val _ = raise (if sum (all [3, 1, 4, 1, 5, 9, 2, 6] Leaf) = 31 then Right else Wrong)",
    // A function over lists at two types.
    "fun map f [] = [] | map f (x :: xs) = f x :: map f xs \
     exception Right exception Wrong \
     val a = map (fn x => x + 1) [1, 2] \
     val b = map (fn x => (x, x)) [true] \
     val _ = raise (if a = [2, 3] andalso b = [(true, true)] then Right else Wrong)",
    // A loop over references.
    "fun ! (ref x) = x \
     exception Right exception Wrong \
     val n = ref 0 val s = ref 0 \
     val _ = while !n < 100 do (n := !n + 1; s := !s + !n) \
     val _ = raise (if !s = 5050 then Right else Wrong)",
    // Functions by `val rec` that call one another.
    "val rec even = fn 0 => true | n => odd (n - 1) and odd = fn 0 => false | n => even (n - 1) \
     exception Right exception Wrong \
     val _ = raise (if even 10 andalso odd 7 then Right else Wrong)",
    // A datatype and an abbreviation of each other.
    "datatype 'a tree = Tree of 'a * 'a forest withtype 'a forest = 'a tree list \
     fun size (Tree (_, ts)) = 1 + sizes ts and sizes [] = 0 | sizes (t :: ts) = size t + sizes ts \
     val f : int forest = [Tree (1, []), Tree (2, [Tree (3, [])])] \
     exception Right exception Wrong \
     val _ = raise (if sizes f = 3 then Right else Wrong)",
    // A datatype inside an expression.
    "val n = let datatype color = Red | Green of int \
                 fun code Red = 1 | code (Green k) = k \
             in code Red + code (Green 41) end \
     exception Right exception Wrong \
     val _ = raise (if n = 42 then Right else Wrong)",
    // What is declared for other declarations alone.
    "val secret = 1 \
     local val secret = 40 fun twice x = x + x in fun f x = x + secret val two = twice 1 end \
     exception Right exception Wrong \
     val _ = raise (if f two = 42 andalso secret = 1 then Right else Wrong)",
    // Abbreviations of types, with records.
    "type point = {x : int, y : int} type 'a pair = 'a * 'a \
     fun move ({y, x} : point, dx) : point = {y = y, x = x + dx} \
     val p : point pair = (move ({x = 1, y = 2}, 3), {y = 2, x = 4}) \
     val (a, b) = p \
     exception Right exception Wrong \
     val _ = raise (if a = b then Right else Wrong)",
    // A type variable of equality that is named where it is scoped.
    "fun ''a member (_ : ''a, []) = false | member (x, y :: ys) = x = y orelse member (x, ys) \
     exception Right exception Wrong \
     val a = member (3, [1, 2, 3]) andalso member (\"b\", [\"a\", \"b\"]) \
     val b = member ((1, true), [(1, false)]) \
     val _ = raise (if a then if b then Wrong else Right else Wrong)",
    // Functions that are made, kept in a list, composed and applied.
    "fun (f o g) x = f (g x) \
     fun add n = fn m => n + m \
     val h = add 1 o add 10 o (fn x => x * 2) \
     fun make n = let val k = n * n in fn x => x + k end \
     fun all [] x = x | all (f :: fs) x = all fs (f x) \
     exception Right exception Wrong \
     val _ = raise (if h 4 = 19 andalso all [make 1, make 2, make 3] 0 = 14 then Right else Wrong)",
    // Functions inside datatypes.
    "datatype stream = Cons of int * (unit -> stream) \
     datatype shape = Shape of {area : int -> int, name : string} \
     fun from n = Cons (n, fn () => from (n + 1)) \
     fun nth (Cons (x, _), 0) = x | nth (Cons (_, rest), n) = nth (rest (), n - 1) \
     fun area (Shape {area = f, name = _}) = f \
     exception Right exception Wrong \
     val square = Shape {name = \"square\", area = fn n => n * n} \
     val _ = raise (if area square (nth (from 5, 20)) = 625 then Right else Wrong)",
    // A handler that passes on what none of its rules takes.
    "exception A of int exception B \
     fun f 0 = raise B | f n = raise A n \
     fun g n = f n handle A 1 => 1 \
     exception Right exception Wrong \
     val x = g 1 val y = g 2 handle A n => n * 10 val z = g 0 handle A _ => 6 | B => 7 \
     val _ = raise (if (x, y, z) = (1, 20, 7) then Right else Wrong)",
    // One exception under two names, and one binding that makes two exceptions.
    "exception A exception B = A \
     fun make () = let exception E of int in (fn n => if n > 0 then raise E n else n, fn f => f () handle E n => n) end \
     val (raise1, catch1) = make () val (raise2, catch2) = make () \
     val a = catch1 (fn () => raise1 5) \
     val b = catch2 (fn () => catch1 (fn () => raise2 6) + 1) \
     val c = (raise A) handle B => 3 \
     exception Right exception Wrong \
     val _ = raise (if a = 5 andalso b = 6 andalso c = 3 then Right else Wrong)",
    // Equality, which goes down to references and compares these by identity.
    "val r = ref 1 val s = ref 1 \
     datatype d = D of int ref * string \
     val same = r = r andalso D (r, \"a\") = D (r, \"a\") andalso [{a = r}] = [{a = r}] \
     val other = r = s orelse D (r, \"a\") = D (s, \"a\") orelse D (r, \"a\") = D (r, \"b\") orelse [r] = [s] orelse [r] = [] \
     exception Right exception Wrong \
     val _ = raise (if same then if other then Wrong else Right else Wrong)",
    // Constants of all kinds in patterns.
    "fun i 0 = \"zero\" | i ~1 = \"minus\" | i 0x1F = \"hexadecimal\" | i _ = \"other\" \
     fun w 0w7 = 1 | w 0wxff = 2 | w _ = 3 \
     fun c #\"a\" = 1 | c #\"\\n\" = 2 | c _ = 3 \
     fun s \"\" = 0 | s \"ab\" = 1 | s \"a\\\"b\" = 2 | s _ = 3 \
     fun b true = 1 | b false = 0 \
     exception Right exception Wrong \
     val texts = [i 0, i ~1, i 31, i 1] = [\"zero\", \"minus\", \"hexadecimal\", \"other\"] \
     val codes = [w 0w7, w 0w255, w 0w0, c #\"a\", c #\"\\010\", c #\"b\", s \"\", s \"ab\", s \"a\\\"b\", s \"a\", b true, b false] \
     val _ = raise (if texts andalso codes = [1, 2, 3, 1, 2, 3, 0, 1, 2, 3, 1, 0] then Right else Wrong)",
    // A pattern that names a value and looks into it.
    "fun once (all as [_]) = all | once (x :: (rest as y :: _)) = if x = y then once rest else x :: once rest | once [] = [] \
     val {a as (p, q), b = n : int} = {b = 3, a = (1, 2)} \
     exception Right exception Wrong \
     val _ = raise (if once [1, 1, 2, 2, 3, 1] = [1, 2, 3, 1] andalso a = (p, q) andalso p + q = n then Right else Wrong)",
    // Infix operators of the source's own.
    "infix 5 ++ infixr 3 --> \
     fun (a, b) ++ (c, d) = (a + c, b + d) \
     fun a --> b = a * 10 - b \
     local nonfix - in val four = - (6, 2) end \
     exception Right exception Wrong \
     val sums = (1, 2) ++ (3, four) ++ (5, 6) = (9, 12) \
     val _ = raise (if sums andalso (1 --> 2 --> 3) = ~7 andalso op --> (2, 9 - 8) = 19 then Right else Wrong)",
    // A list of 1,000 elements.
    "fun down (0, l) = l | down (n, l) = down (n - 1, n :: l) \
     fun foldl f b [] = b | foldl f b (x :: xs) = foldl f (f (x, b)) xs \
     fun rev l = foldl (op ::) [] l \
     fun copy [] = [] | copy (x :: xs) = x :: copy xs \
     val l = down (1000, []) \
     exception Right exception Wrong \
     val _ = raise (if foldl (op +) 0 l = 500500 andalso rev (rev l) = copy l then Right else Wrong)",
    // Overloaded operators at several types, and at integers where nothing else says it.
    "fun double x = x + x \
     fun square (x : word) = x * x \
     fun least (x : string, y) = if x < y then x else y \
     val numbers = double 3 = 6 andalso ~5 div 2 = ~3 andalso ~5 mod 2 = 1 andalso abs ~3 = 3 \
     val others = square 0w3 = 0w9 andalso 0w0 - 0w1 > 0w1 andalso #\"a\" < #\"b\" andalso least (\"b\", \"a\") = \"a\" \
     exception Right exception Wrong \
     val _ = raise (if numbers andalso others then Right else Wrong)",
    // Curried functions by clauses, applied to some of their arguments.
    "fun zip f (x :: xs) (y :: ys) = f x y :: zip f xs ys | zip _ _ _ = [] \
     fun power _ 0 = 1 | power b n = b * power b (n - 1) \
     val of_two = power 2 \
     val powers = zip power [2, 3, 4] \
     exception Right exception Wrong \
     val _ = raise (if powers [3, 2, 1, 0] = [8, 9, 4] andalso of_two 10 = 1024 then Right else Wrong)",
    // Cases inside cases.
    "fun f (l, b) = case l of \
         [] => (case b of true => 1 | false => 2) \
       | [x] => (case x of 0 => 3 | n => case b of true => n | false => ~n) \
       | x :: y :: _ => (case (x, y) of (0, _) => 4 | (_, 0) => 5 | (a, b) => a * b) \
     exception Right exception Wrong \
     val all = [f ([], true), f ([], false), f ([0], true), f ([8], true), f ([8], false), f ([0, 0], true), f ([1, 0], true), f ([6, 7, 0], true)] \
     val _ = raise (if all = [1, 2, 3, 8, ~8, 4, 5, 42] then Right else Wrong)",
    // Strings, compared byte by byte.
    "val yes = \"abc\" < \"abd\" andalso \"ab\" < \"abc\" andalso \"\" < \"a\" andalso \"Z\" < \"a\" andalso \"b\" > \"abc\" andalso \"a\\200\" > \"az\" \
     val equal = \"a\" <= \"a\" andalso \"a\" >= \"a\" andalso \"a\\098\" = \"ab\" \
     val no = \"a\" < \"a\" orelse \"b\" <= \"a\" orelse \"a\" = \"A\" \
     exception Right exception Wrong \
     val _ = raise (if yes andalso equal then if no then Wrong else Right else Wrong)",
    // Datatypes that refer to one another.
    "datatype exp = Number of int | Variable | Plus of exp * exp | Let of dec * exp and dec = Value of exp \
     fun eval (_, Number n) = n \
       | eval (v, Variable) = v \
       | eval (v, Plus (a, b)) = eval (v, a) + eval (v, b) \
       | eval (v, Let (d, e)) = eval (bound (v, d), e) \
     and bound (v, Value e) = eval (v, e) \
     exception Right exception Wrong \
     val six = Let (Value (Plus (Number 1, Number 2)), Plus (Variable, Variable)) \
     val _ = raise (if eval (0, six) = 6 then Right else Wrong)",
    // Identifiers that are bound again, constructors among them.
    "val x = 1 fun f y = x + y val x = 10 val x = let val x = x + 1 in x * 2 end \
     datatype t = A | B val a = A \
     datatype u = B | C fun g B = 1 | g C = 2 \
     exception Right exception Wrong \
     val eleven = (fn x => (fn x => x + 1) (x * 2)) 5 \
     val _ = raise (if f x = 23 andalso g B = 1 andalso a = A andalso eleven = 11 then Right else Wrong)",
    // Functions of a `let` that are general inside a general function.
    "fun f x = let fun pair y = (y, x) \
                   val (a, _) = pair x val (b, _) = pair [x] \
                   val same = fn z => z \
               in (same a, same b, pair 1) end \
     exception Right exception Wrong \
     val _ = raise (if f 1 = (1, [1], (1, 1)) andalso f \"a\" = (\"a\", [\"a\"], (1, \"a\")) then Right else Wrong)",
    // Parts are evaluated in the order in which they are written.
    "fun ! (ref x) = x \
     val log = ref 0 \
     fun note n = (log := !log * 10 + n; n) \
     val _ = (note 1, {b = note 2, a = note 3}) \
     val _ = [note 4, note 5 + note 6] \
     fun curried a = (note 7; fn b => a + b) \
     val _ = curried (note 8) (note 9) \
     val _ = note 0 < 1 orelse note 1 < 1 \
     exception Right exception Wrong \
     val _ = raise (if !log = 1234568790 then Right else Wrong)",
    // The structure of integers.
    "exception Right exception Wrong \
     val texts = [Int.toString 0, Int.toString ~12, Int.toString 2147483647] = [\"0\", \"~12\", \"2147483647\"] \
     val parts = (Int.quot (~7, 2), Int.rem (~7, 2), ~7 div 2, ~7 mod 2) = (~3, ~1, ~4, 1) \
     val _ = raise (if texts andalso parts then Right else Wrong)",
];

/// Sources, and the exceptions of the basis that they leave.
pub const LEAVE: [(&str, &str); 5] = [
    ("fun f 0 = 1 val _ = f 0 val _ = f 2", "Match"),
    ("val [x] = [1] val [y] = [1, 2]", "Bind"),
    (
        "datatype t = A of int | B of int \
         fun f t = let val A n = t in n end \
         val _ = f (A 1) val _ = f (B 2)",
        "Bind",
    ),
    ("fun f n = f (n * 2) val _ = f 1", "Overflow"),
    (
        "exception E of int \
         fun f 0 = raise E 7 | f n = f (n - 1) \
         val seven = f 5 handle E n => n \
         val _ = 1 div (seven - 7)",
        "Div",
    ),
];
