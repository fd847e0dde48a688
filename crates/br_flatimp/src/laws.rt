// What holds of flat programs. These functions do nothing: each
// contract is a law of the definitions.

ghost use Rattle.std.specs.Prelude.{◌≡◌, ℕ, List, ◌++◌, map};
ghost use Rattle.std.specs.List.{AllByRecursion};
ghost use Rattle.br_flatimp.specs.declared.program.Cond.{Cond};
ghost use Rattle.br_flatimp.specs.declared.program.FlatFunc.{FlatFunc};
ghost use Rattle.br_flatimp.specs.declared.program.Stmt.{Stmt};
ghost use Rattle.br_flatimp.specs.Liveness.{Within, at_test, before, before_all};
ghost use Rattle.br_flatimp.specs.Liveness.{entry, is_in, live, moments, union};
ghost use Rattle.br_bytes.specs.Runs.{then_do};
ghost use Rattle.br_flatimp.specs.LiveTables.{KeepsRules, Table, live_table};
ghost use Rattle.br_flatimp.specs.Matches.{CalleesMatch, Matches, SameOutside};
ghost use Rattle.br_flatimp.specs.Parts.{test_names};
ghost use Rattle.br_flatimp.specs.Refines.{Meaning, Refines, forgetting, meaning};
ghost use Rattle.br_flatimp.specs.Renaming.{At, ForgetsDead, ReadsNoForgotten, RenamedFunctions};
ghost use Rattle.br_flatimp.specs.Runs.{Callee, Forgets, State, forgets_none, run, run_all};
ghost use Rattle.br_flatimp.specs.Values.{Names};

/// A program refines itself, and where one refines a second and that a third, it refines the third.
pub fn refines_composes()
    ensures itself { (p : Meaning) → Refines p p }
    ensures composes { (r q p : Meaning) → Refines r q → Refines q p → Refines r p }
{}

/// What is live is the least table that keeps the rules of liveness: after each statement, by its
/// number in preorder, and at the test of each loop, by the loop's number.
pub fn liveness_is_least()
    ensures keeps { (f : FlatFunc) → KeepsRules f (live_table f) }
    ensures least { (f : FlatFunc) (t : Table) → KeepsRules f t → (n : ℕ) →
        Within ((live_table f).after n) (t.after n) × Within ((live_table f).test n) (t.test n) }
{}

/// What is live at a loop's test holds the names of the test, what is live after the loop, and what
/// is live before the last part with the first part and the test after it; and it is within every
/// set that does. More that is live after a statement is no less that is live before it.
pub fn loops_take_one_turn()
    ensures holds { (first : List Stmt) (test : Cond) (last : List Stmt) (after : Names) →
        Within (union (is_in (test_names test)) (union after (before_all
        last (before_all first (at_test (map live first) test (map live last) after)))))
        (at_test (map live first) test (map live last) after) }
    ensures least { (first : List Stmt) (test : Cond) (last : List Stmt) (after set : Names) →
        Within (union (is_in (test_names test))
        (union after (before_all last (before_all first set)))) set →
        Within (at_test (map live first) test (map live last) after) set }
    ensures grows { (s : Stmt) (small large : Names) → Within small large →
        Within (before s small) (before s large) }
{}

/// Statements in turn are their first part and then the rest, in runs and in what is live.
pub fn lists_have_two_parts()
    ensures run { (forgets : Forgets) (call : Callee) (xs ys : List Stmt) (s : State) →
        run_all forgets call (xs ++ ys) s
        ≡ then_do (run_all forgets call xs s) (run_all forgets call ys) }
    ensures before { (xs ys : List Stmt) (after : Names) →
        before_all (xs ++ ys) after ≡ before_all xs (before_all ys after) }
    ensures moments { (xs ys : List Stmt) (after : Names) →
        moments (map live (xs ++ ys)) after
        ≡ moments (map live xs) (before_all ys after) ++ moments (map live ys) after }
{}

/// Two states that agree on what is live before a statement, or before statements in
/// turn, are taken to states that agree on what is live after, with the same events
/// and the same end, where calls do so: as far as the second run is defined. Calls in
/// the first may forget what is not live.
pub fn runs_agree_on_live_names()
    ensures statement { (forgets others : Forgets) (q p : Callee) → CalleesMatch q p →
        (c : Stmt) (after : Names) (s t : State) →
        AllByRecursion (ForgetsDead forgets) ((live c).moments after) →
        At (λ x. x) (before c after) s t →
        Matches (At (λ x. x) after) SameOutside (run forgets q c s) (run others p c t) }
    ensures statements { (forgets others : Forgets) (q p : Callee) → CalleesMatch q p →
        (body : List Stmt) (after : Names) (s t : State) →
        AllByRecursion (ForgetsDead forgets) (moments (map live body) after) →
        At (λ x. x) (before_all body after) s t →
        Matches (At (λ x. x) after) SameOutside (run_all forgets q body s)
        (run_all others p body t) }
{}

/// A program whose functions have other names refines the one that they came from, where what is
/// written stays apart from what is live; and so where its calls forget what is not live.
pub fn renamed_programs_refine()
    ensures { (forgets others : Forgets) (qs ps : List FlatFunc) → RenamedFunctions forgets qs ps →
        Refines (forgetting forgets qs) (forgetting others ps) }
{}

/// A program that reads no name that a call forgot refines its usual meaning.
pub fn forgetting_refines()
    ensures usual { (forgets : Forgets) (fs : List FlatFunc) → ReadsNoForgotten forgets fs →
        Refines (forgetting forgets fs) (meaning fs) }
    ensures less { (forgets others : Forgets) (fs : List FlatFunc) → ReadsNoForgotten forgets fs →
        Refines (forgetting forgets fs) (forgetting others fs) }
{}
