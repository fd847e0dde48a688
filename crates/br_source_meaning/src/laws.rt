// What holds of runs. These functions do nothing: each contract is a law of the definitions.

ghost use Rattle.std.specs.Prelude.{◌≡◌, ◌≢◌, ℕ, ◌<◌, ◌≤◌, ◌==◌, List, ◌++◌};
ghost use Rattle.br_bytes.specs.declared.run.Choice.{Choice};
ghost use Rattle.br_bytes.specs.declared.run.Outcome.TheVariants as outcome;
ghost use Rattle.br_bytes.specs.Memory.{Memory};
ghost use Rattle.br_syntax.specs.declared.program.Cmd.{Cmd};
ghost use Rattle.br_syntax.specs.declared.program.Cmd.TheVariants.{While};
ghost use Rattle.br_syntax.specs.declared.program.Expr.{Expr};
ghost use Rattle.br_syntax.specs.declared.program.Func.{Func};
ghost use Rattle.br_syntax.specs.Functions.{function_named};
ghost use Rattle.br_source_meaning.specs.Values.{Name, value};
ghost use Rattle.br_source_meaning.specs.Runs.{State, Callee, Goes, with_defined, choose};
ghost use Rattle.br_source_meaning.specs.Runs.{with_fuel, then_do, run, run_all};
ghost use Rattle.br_source_meaning.specs.Calls.{enter, function_of, call};
ghost use Rattle.br_bytes.specs.Left.{BeginsWith, CanLeave, last, OnlyTakes, OutcomeStays};
ghost use Rattle.br_bytes.specs.Left.{with_more, IsSameWithMore, IsSameCallWithMore};

/// A run keeps the events before it, takes answers and choices from the front, and gains no fuel.
pub fn runs_only_take()
    ensures run { (call : Callee) → OnlyTakes call → (c : Cmd) (s : State) →
        CanLeave s (last (run call c s)) }
    ensures run_all { (call : Callee) → OnlyTakes call → (cs : List Cmd) (s : State) →
        CanLeave s (last (run_all call cs s)) }
    ensures function_of { (fs : List Func) (depth : ℕ) → OnlyTakes (function_of fs depth) }
{}

/// More fuel: a call that does not run out of it ends the same with more, and one that does has
/// made
/// the first of the events that it makes with more.
pub fn more_fuel_goes_on()
    ensures same { (fs : List Func) (f : Func) (args : List ℕ) (m : Memory) (answers : List ℕ)
        (choices : List Choice) (j k : ℕ) →
        j ≤ k → (call fs f args m answers choices j).outcome ≢ outcome.OutOfFuel →
        call fs f args m answers choices k ≡ call fs f args m answers choices j }
    ensures begins { (fs : List Func) (f : Func) (args : List ℕ) (m : Memory) (answers : List ℕ)
        (choices : List Choice) (j k : ℕ) →
        j ≤ k →
        BeginsWith (call fs f args m answers choices k).trace
        (call fs f args m answers choices j).trace }
{}

/// Longer lists: answers and choices that a run did not take may be followed by any others, and are
/// then still there. A run that waited, or had no choice that it could take, may go on.
pub fn longer_lists_stay()
    ensures run { (fs : List Func) (depth : ℕ) (c : Cmd) (s : State) (vs : List ℕ)
        (cs : List Choice) →
        IsSameWithMore vs cs (run (function_of fs depth) c s)
        (run (function_of fs depth) c (with_more vs cs s)) }
    ensures run_all { (fs : List Func) (depth : ℕ) (body : List Cmd) (s : State) (vs : List ℕ)
        (cs : List Choice) →
        IsSameWithMore vs cs (run_all (function_of fs depth) body s)
        (run_all (function_of fs depth) body (with_more vs cs s)) }
    ensures function_of { (fs : List Func) (depth : ℕ) (f : Name) (args : List ℕ) (s : State)
        (vs : List ℕ) (cs : List Choice) →
        IsSameCallWithMore vs cs (function_of fs depth f args s)
        (function_of fs depth f args (with_more vs cs s)) }
    ensures call { (fs : List Func) (f : Func) (args : List ℕ) (m : Memory) (answers : List ℕ)
        (choices : List Choice) (fuel : ℕ) (vs : List ℕ) (cs : List Choice) →
        OutcomeStays (call fs f args m answers choices fuel).outcome vs cs →
        call fs f args m (answers ++ vs) (choices ++ cs) fuel
        ≡ call fs f args m answers choices fuel }
    ensures begins { (fs : List Func) (f : Func) (args : List ℕ) (m : Memory) (answers : List ℕ)
        (choices : List Choice) (fuel : ℕ) (vs : List ℕ) (cs : List Choice) →
        BeginsWith (call fs f args m (answers ++ vs) (choices ++ cs) fuel).trace
        (call fs f args m answers choices fuel).trace }
{}

/// The bounds on turns and on depth do not show: a loop is its test, a turn and the loop again, and
/// a
/// call is the function's body, in which calls mean the same, where the depth is above the fuel.
pub fn bounds_do_not_show()
    ensures loops { (call : Callee) → OnlyTakes call → (test : Expr) (body : List Cmd) (s : State) →
        run call (While test body) s ≡ with_defined (value s.locals s.memory test) s (λ v.
        choose (v == 0) (Goes s) (with_fuel s
        (λ t. then_do (run_all call body t) (run call (While test body))))) }
    ensures calls { (fs : List Func) (depth : ℕ) (f : Name) (args : List ℕ) (s : State) →
        s.fuel < depth →
        function_of fs depth f args s ≡ enter (function_of fs depth) (function_named fs f) args s }
    ensures depths { (fs : List Func) (low high : ℕ) (f : Name) (args : List ℕ) (s : State) →
        s.fuel < low → low ≤ high → function_of fs high f args s ≡ function_of fs low f args s }
{}
