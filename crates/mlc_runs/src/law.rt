// Laws of runs, as contracts.

ghost use Rattle.std.specs.Prelude.{◌≡◌, ◌≢◌, ℕ, List, Option, Some};
ghost use Rattle.mlc_runs.specs.Agreement.{SameWorlds, Agree};
ghost use Rattle.mlc_runs.specs.MoreTurns.{GrowsTo, HasMoreTurns, OnlyWrites, GoesOn};
ghost use Rattle.mlc_runs.specs.Outcome.{wrong};
ghost use Rattle.mlc_runs.specs.Refinement.{Refines};
ghost use Rattle.mlc_base.specs.declared.place.Place.{Place};
ghost use Rattle.mlc_runs.specs.Run.{World, Answer, gives, raises, stops, out_of_turns, start, then_do, or_handle, or_fail, fail, take_turn, writes, new_reference, dereference, assign, new_exception, outcome_of};

/// Going on with a result: nothing added is nothing changed, and two steps are one after the other.
pub fn results_go_on<V, A, B, C>()
    ensures unit { (r : Answer V A) → then_do r gives ≡ r }
    ensures associative { (r : Answer V A) (f : A → World V → Answer V B) (g : B → World V → Answer V C)
        → then_do (then_do r f) g ≡ then_do r (λ a w. then_do (f a w) g) }
{}

/// Handling a packet: to raise it again changes nothing, and two handlers are one after the other.
pub fn packets_are_handled<V, A>()
    ensures unit { (r : Answer V A) → or_handle r raises ≡ r }
    ensures associative { (r : Answer V A) (f g : V → World V → Answer V A)
        → or_handle (or_handle r f) g ≡ or_handle r (λ packet w. or_handle (f packet w) g) }
{}

/// A relation of the values of two forms.
pub trait Relation<V, W> {
    ghost related: { V → W → Type 0 };
}

/// Runs agree where their parts do, and have one outcome then.
pub fn runs_agree<V, W, A, B, C, D, R: Relation<V, W>, S: Relation<A, B>, T: Relation<C, D>>()
    ensures begin { (turns : ℕ) → SameWorlds R.related (start turns) (start turns) }
    ensures go_on { (r : Answer V C) (r' : Answer W D) (go : C → World V → Answer V A) (go' : D → World W → Answer W B)
        → Agree R.related T.related r r'
        → ((c : C) (d : D) (w : World V) (u : World W) → T.related c d → SameWorlds R.related w u
        → Agree R.related S.related (go c w) (go' d u))
        → Agree R.related S.related (then_do r go) (then_do r' go') }
    ensures handle { (r : Answer V A) (r' : Answer W B) (go : V → World V → Answer V A) (go' : W → World W → Answer W B)
        → Agree R.related S.related r r'
        → ((p : V) (q : W) (w : World V) (u : World W) → R.related p q → SameWorlds R.related w u
        → Agree R.related S.related (go p w) (go' q u))
        → Agree R.related S.related (or_handle r go) (or_handle r' go') }
    ensures turn { (place : Place) (w : World V) (u : World W) (go : World V → Answer V A) (go' : World W → Answer W B)
        → SameWorlds R.related w u
        → ((w' : World V) (u' : World W) → SameWorlds R.related w' u' → Agree R.related S.related (go w') (go' u'))
        → Agree R.related S.related (take_turn place w go) (take_turn place u go') }
    ensures one_outcome { (name : V → World V → Option ℕ) (name' : W → World W → Option ℕ)
        (r : Answer V A) (r' : Answer W B)
        → ((p : V) (q : W) (w : World V) (u : World W) → R.related p q → SameWorlds R.related w u → name' q u ≡ name p w)
        → Agree R.related S.related r r' → outcome_of name' r' ≡ outcome_of name r }
{}

/// A run refines another where its parts do, and both have one outcome then, unless the first goes wrong.
pub fn runs_refine<V, W, A, B, C, D, R: Relation<V, W>, S: Relation<A, B>, T: Relation<C, D>>()
    ensures agree { (r : Answer V A) (r' : Answer W B) → Agree R.related S.related r r' → Refines R.related S.related r r' }
    ensures fails { (w : World V) (r' : Answer W B) → Refines R.related S.related (fail w) r' }
    ensures go_on { (r : Answer V C) (r' : Answer W D) (go : C → World V → Answer V A) (go' : D → World W → Answer W B)
        → Refines R.related T.related r r'
        → ((c : C) (d : D) (w : World V) (u : World W) → T.related c d → SameWorlds R.related w u
        → Refines R.related S.related (go c w) (go' d u))
        → Refines R.related S.related (then_do r go) (then_do r' go') }
    ensures handle { (r : Answer V A) (r' : Answer W B) (go : V → World V → Answer V A) (go' : W → World W → Answer W B)
        → Refines R.related S.related r r'
        → ((p : V) (q : W) (w : World V) (u : World W) → R.related p q → SameWorlds R.related w u
        → Refines R.related S.related (go p w) (go' q u))
        → Refines R.related S.related (or_handle r go) (or_handle r' go') }
    ensures turn { (place : Place) (w : World V) (u : World W) (go : World V → Answer V A) (go' : World W → Answer W B)
        → SameWorlds R.related w u
        → ((w' : World V) (u' : World W) → SameWorlds R.related w' u' → Refines R.related S.related (go w') (go' u'))
        → Refines R.related S.related (take_turn place w go) (take_turn place u go') }
    ensures one_outcome { (name : V → World V → Option ℕ) (name' : W → World W → Option ℕ)
        (r : Answer V A) (r' : Answer W B)
        → ((p : V) (q : W) (w : World V) (u : World W) (identifier : ℕ) → R.related p q → SameWorlds R.related w u
        → name p w ≡ Some identifier → name' q u ≡ Some identifier)
        → Refines R.related S.related r r' → (outcome_of name r).end ≢ wrong → outcome_of name' r' ≡ outcome_of name r }
{}

/// With more turns a run goes on where its parts do. So what a meaning shows of its own is a line for each kind of phrase.
pub fn more_turns_go_on<V, A, B>()
    ensures give { (a : A) → GoesOn {V = V} (gives a) (gives a) }
    ensures raise { (packet : V) → GoesOn {A = A} (raises packet) (raises packet) }
    ensures fails { GoesOn {V = V} {A = A} fail fail }
    ensures out_of_fuel { (run : World V → Answer V A) → OnlyWrites run → GoesOn (stops out_of_turns) run }
    ensures go_on { (few many : World V → Answer V B) (go go' : B → World V → Answer V A)
        → GoesOn few many → ((b : B) → GoesOn (go b) (go' b)) → GoesOn (λ w. then_do (few w) go) (λ w. then_do (many w) go') }
    ensures handle { (few many : World V → Answer V A) (go go' : V → World V → Answer V A)
        → GoesOn few many → ((packet : V) → GoesOn (go packet) (go' packet))
        → GoesOn (λ w. or_handle (few w) go) (λ w. or_handle (many w) go') }
    ensures maybe { (found : Option B) (go go' : B → World V → Answer V A)
        → ((b : B) → GoesOn (go b) (go' b)) → GoesOn (λ w. or_fail found w (λ b. go b w)) (λ w. or_fail found w (λ b. go' b w)) }
    ensures turn { (place : Place) (few many : World V → Answer V A)
        → GoesOn few many → GoesOn (λ w. take_turn place w few) (λ w. take_turn place w many) }
    ensures write { (bytes : List ℕ) (few many : World V → Answer V A)
        → GoesOn few many → GoesOn (λ w. few (writes bytes w)) (λ w. many (writes bytes w)) }
    ensures refer { (v : V) (go go' : ℕ → World V → Answer V A)
        → ((at : ℕ) → GoesOn (go at) (go' at)) → GoesOn (λ w. new_reference v w go) (λ w. new_reference v w go') }
    ensures deref { (at : ℕ) (go go' : V → World V → Answer V A)
        → ((v : V) → GoesOn (go v) (go' v)) → GoesOn (λ w. dereference at w (λ v. go v w)) (λ w. dereference at w (λ v. go' v w)) }
    ensures update { (at : ℕ) (v : V) (few many : World V → Answer V A)
        → GoesOn few many → GoesOn (λ w. assign at v w few) (λ w. assign at v w many) }
    ensures except { (identifier : ℕ) (go go' : ℕ → World V → Answer V A)
        → ((name : ℕ) → GoesOn (go name) (go' name)) → GoesOn (λ w. new_exception identifier w go) (λ w. new_exception identifier w go') }
    ensures outcome { (name : V → World V → Option ℕ) (few many : World V → Answer V A) (w w' : World V)
        → ((packet : V) (u u' : World V) → HasMoreTurns u u' → name packet u' ≡ name packet u)
        → GoesOn few many → HasMoreTurns w w' → GrowsTo (outcome_of name (few w)) (outcome_of name (many w')) }
{}
