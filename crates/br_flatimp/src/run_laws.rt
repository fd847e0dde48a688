// What holds of runs of flat programs. These functions do nothing: each contract is a law of the
// definitions. `forgets` says which names a call forgets; at
// `forgets_none` it is the usual meaning.

ghost use Rattle.std.specs.Prelude.{◌≡◌, ◌≢◌, ℕ, ◌<◌, ◌≤◌, ◌==◌, List, ◌++◌, slice_get};
ghost use Rattle.br_bytes.specs.declared.run.Choice.{Choice};
ghost use Rattle.br_bytes.specs.declared.run.Outcome.TheVariants as outcome;
ghost use Rattle.br_bytes.specs.Left.{BeginsWith, CanLeave, IsSameCallWithMore, IsSameWithMore};
ghost use Rattle.br_bytes.specs.Left.{OnlyTakes, OutcomeStays, last, with_more};
ghost use Rattle.br_bytes.specs.Memory.{Memory};
ghost use Rattle.br_bytes.specs.Runs.{Goes, choose, then_do, with_defined, with_fuel};
ghost use Rattle.br_flatimp.specs.declared.program.Cond.{Cond};
ghost use Rattle.br_flatimp.specs.declared.program.FlatFunc.{FlatFunc};
ghost use Rattle.br_flatimp.specs.declared.program.Stmt.{Stmt};
ghost use Rattle.br_flatimp.specs.declared.program.Stmt.TheVariants.{Loop};
ghost use Rattle.br_flatimp.specs.Runs.{Callee, Forgets, State, call_forgetting};
ghost use Rattle.br_flatimp.specs.Runs.{enter, function_of, run, run_all};
ghost use Rattle.br_flatimp.specs.Values.{test_word};

/// A run keeps the events before it, takes answers and choices from the front, and gains no fuel.
pub fn runs_only_take()
    ensures run { (forgets : Forgets) (call : Callee) → OnlyTakes call → (c : Stmt) (s : State) →
        CanLeave s (last (run forgets call c s)) }
    ensures run_all { (forgets : Forgets) (call : Callee) → OnlyTakes call →
        (body : List Stmt) (s : State) →
        CanLeave s (last (run_all forgets call body s)) }
    ensures function_of { (forgets : Forgets) (fs : List FlatFunc) (depth : ℕ) →
        OnlyTakes (function_of forgets fs depth) }
{}

/// More fuel: a call that does not run out of it ends the same with more, and one that does has
/// made the first of the events that it makes with more.
pub fn more_fuel_goes_on()
    ensures same { (forgets : Forgets) (fs : List FlatFunc) (g : ℕ) (args : List ℕ) (m : Memory)
        (answers : List ℕ) (choices : List Choice) (j k : ℕ) →
        j ≤ k →
        (call_forgetting forgets fs g args m answers choices j).outcome ≢ outcome.OutOfFuel →
        call_forgetting forgets fs g args m answers choices k
        ≡ call_forgetting forgets fs g args m answers choices j }
    ensures begins { (forgets : Forgets) (fs : List FlatFunc) (g : ℕ) (args : List ℕ) (m : Memory)
        (answers : List ℕ) (choices : List Choice) (j k : ℕ) →
        j ≤ k →
        BeginsWith (call_forgetting forgets fs g args m answers choices k).trace
        (call_forgetting forgets fs g args m answers choices j).trace }
{}

/// Longer lists: answers and choices that a run did not take may be followed by any others, and are
/// then still there. A run that waited, or had no choice that it could take, may go on.
pub fn longer_lists_stay()
    ensures run { (forgets : Forgets) (fs : List FlatFunc) (depth : ℕ) (c : Stmt) (s : State)
        (vs : List ℕ) (cs : List Choice) →
        IsSameWithMore vs cs (run forgets (function_of forgets fs depth) c s)
        (run forgets (function_of forgets fs depth) c (with_more vs cs s)) }
    ensures run_all { (forgets : Forgets) (fs : List FlatFunc) (depth : ℕ) (body : List Stmt)
        (s : State) (vs : List ℕ) (cs : List Choice) →
        IsSameWithMore vs cs (run_all forgets (function_of forgets fs depth) body s)
        (run_all forgets (function_of forgets fs depth) body (with_more vs cs s)) }
    ensures function_of { (forgets : Forgets) (fs : List FlatFunc) (depth g : ℕ) (args : List ℕ)
        (s : State) (vs : List ℕ) (cs : List Choice) →
        IsSameCallWithMore vs cs (function_of forgets fs depth g args s)
        (function_of forgets fs depth g args (with_more vs cs s)) }
    ensures call { (forgets : Forgets) (fs : List FlatFunc) (g : ℕ) (args : List ℕ) (m : Memory)
        (answers : List ℕ) (choices : List Choice) (fuel : ℕ) (vs : List ℕ) (cs : List Choice) →
        OutcomeStays (call_forgetting forgets fs g args m answers choices fuel).outcome vs cs →
        call_forgetting forgets fs g args m (answers ++ vs) (choices ++ cs) fuel
        ≡ call_forgetting forgets fs g args m answers choices fuel }
    ensures begins { (forgets : Forgets) (fs : List FlatFunc) (g : ℕ) (args : List ℕ) (m : Memory)
        (answers : List ℕ) (choices : List Choice) (fuel : ℕ) (vs : List ℕ) (cs : List Choice) →
        BeginsWith (call_forgetting forgets fs g args m (answers ++ vs) (choices ++ cs) fuel).trace
        (call_forgetting forgets fs g args m answers choices fuel).trace }
{}

/// The bounds on turns and on depth do not show: a loop is its first part, its test, and after a
/// true test a unit of fuel, the last part and the loop again; and a call is the function's body,
/// in which calls mean the same, where the depth is above the fuel.
pub fn bounds_do_not_show()
    ensures loops { (forgets : Forgets) (call : Callee) → OnlyTakes call →
        (first : List Stmt) (test : Cond) (last : List Stmt) (s : State) →
        run forgets call (Loop first test last) s ≡ then_do (run_all forgets call first s) (λ t.
        with_defined (test_word test t.locals) t (λ v.
        choose (v == 0) (Goes t) (with_fuel t (λ u.
        then_do (run_all forgets call last u) (run forgets call (Loop first test last)))))) }
    ensures calls { (forgets : Forgets) (fs : List FlatFunc) (depth g : ℕ)
        (args : List ℕ) (s : State) →
        s.fuel < depth →
        function_of forgets fs depth g args s
        ≡ enter forgets (function_of forgets fs depth) (slice_get fs g) args s }
    ensures depths { (forgets : Forgets) (fs : List FlatFunc) (low high g : ℕ)
        (args : List ℕ) (s : State) →
        s.fuel < low → low ≤ high →
        function_of forgets fs high g args s ≡ function_of forgets fs low g args s }
{}
