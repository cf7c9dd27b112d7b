//! Laws of macros and loops that run.

ghost use Rattle.std.specs.Prelude.{◌≡◌, ◌≤◌, ℕ, suc, ◌+◌, ◌*◌, List, [], ◌∷◌, length, Option, Some, None};
ghost use Rattle.page_roff_blocks.specs.machine.Steps.{At};
ghost use Rattle.page_core_base.specs.declared.limits.TheConstants.{CALLS, REREAD};
ghost use Rattle.page_roff_blocks.specs.machine.Languages.{Budgeted, Effects, language, body, TURNS, Language, run_body, turns, meaning_at, run_page};
ghost use Rattle.page_roff_blocks.specs.machine.Machine.{over, over_running, IsFront, measure, HasMeasure, HasBodyWithin, IsFirst, unspent, AreMet, Leads, Running, at_page, rest_of, next, stands_at};
ghost use Rattle.page_roff_blocks.specs.laws.Spent.{Spends};

/// What is still to come of running sources is what comes of them after one step more, from a line of the page down to its end.
pub fn machine_law<S>()
    ensures start { (l : Language S) (line : List ℕ) (at : At S) →
        rest_of l (at_page line at) ≡ run_page l (line ∷ []) at }
    ensures step { (l : Language S) (r q : Running S) → next l r ≡ Some q → rest_of l r ≡ rest_of l q }
    ensures end { (l : Language S) (r : Running S) → next l r ≡ None → rest_of l r ≡ stands_at r }
{}

/// A source line takes no more than itself and its budget, whatever its macros, loops and remainders do.
pub fn budget_law<R>()
    ensures { (e : Effects R) (line : List ℕ) (at : At (Budgeted R))
        → (run_page (language e) (line ∷ []) at).state.taken ≤ at.state.taken + 1 + REREAD }
{}

/// What nothing of a source looks at, as what was given out before, stays as it is in front of all that is still to come.
pub fn front_law<S>()
    ensures { (l : Language S) (front : S → S) → IsFront front l → (r : Running S)
        → rest_of l (over_running front r) ≡ over front (rest_of l r) }
{}

/// Sources that are run end: each step leaves less work, where the bodies that it begins are bounded. It holds from the first step of
/// a line on.
pub fn measure_law<R>()
    ensures falls { (e : Effects R) (huge : ℕ) (r q : Running (Budgeted R)) → HasMeasure r →
        HasBodyWithin huge r q
        → next (language e) r ≡ Some q → (suc (measure huge q) ≤ measure huge r) × HasMeasure q }
    ensures first { (e : Effects R) (r q : Running (Budgeted R)) → IsFirst r →
        next (language e) r ≡ Some q → HasMeasure q }
{}

/// The number of turns that a loop may have is no limit of its own: one with more of them does the same, since each turn that runs
/// takes one of the re-read lines that are left.
pub fn turns_law<R>()
    ensures { (e : Effects R) (more depth : ℕ) (args : Option (List (List ℕ))) (condition : List ℕ)
        (lines : List (List ℕ)) (s : Budgeted R) → s.left ≤ REREAD
        → let run = run_body (language e) (meaning_at (language e) depth (body args)) lines in
        turns (language e) (more + TURNS) run (body args) condition s ≡ turns (language e) TURNS run (body args) condition s }
{}

/// What lines spend, as interpolations, is at most the same number for each line that they take.
pub fn spending_law<R>()
    ensures { (spent : R → ℕ) (most : ℕ) (e : Effects R) → Spends spent most e
        → (lines : List (List ℕ)) (at : At (Budgeted R))
        → let after = run_page (language e) lines at in
        spent after.state.rest + most * at.state.taken ≤ most * after.state.taken + spent at.state.rest }
{}

/// Each line taken spends the same number at most, from one step to the next: between two moments with the same count of lines taken no
/// more is spent.
pub fn each_line_law<R>()
    ensures step { (spent : R → ℕ) (most : ℕ) (e : Effects R) → Spends spent most e
        → (r q : Running (Budgeted R)) → AreMet r.under → next (language e) r ≡ Some q
        → AreMet q.under × (spent q.state.rest + unspent most q + most * r.state.taken
        ≤ spent r.state.rest + unspent most r + most * q.state.taken) }
    ensures line { (spent : R → ℕ) (most : ℕ) (e : Effects R) → Spends spent most e
        → (r q : Running (Budgeted R)) → AreMet r.under → Leads (language e) r q
        → q.state.taken ≡ r.state.taken → spent q.state.rest ≤ spent r.state.rest + most }
{}

/// No more than `CALLS` macros and loops run inside one another.
pub fn calls_law<S>()
    ensures { (l : Language S) (r q : Running S) → length r.under ≤ CALLS → next l r ≡ Some q
        → length q.under ≤ CALLS }
{}
