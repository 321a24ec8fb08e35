//! Examples of what the desk's book makes of a report, worked out: each is the contract of a function that does nothing.

ghost use Rattle.std.specs.Prelude.{◌≡◌, true, false, [], ◌∷◌, codes, Some, None};
ghost use Rattle.desk_executions.specs.declared.untaken.Untaken.TheVariants.{Duplicate, Overfill, Stray};
ghost use Rattle.log_legs.specs.Execution.{report_untaken};
ghost use Rattle.log_legs.specs.Rows.{bust, kept, known, trade};

/// The book takes a trade of as many shares as are open, and no more.
pub fn trades()
    ensures all { report_untaken (known false 0 100 []) 5 (trade (codes "E1") 100) (Some 0) ≡ None }
    ensures more { report_untaken (known false 0 100 []) 5 (trade (codes "E1") 101) (Some 0) ≡ Some Overfill }
    ensures rest { report_untaken (known false 60 40 (kept 4 (codes "E1") 60 ∷ [])) 5 (trade (codes "E2") 41) (Some 0)
        ≡ Some Overfill }
    ensures unknown { report_untaken (known false 0 100 []) 5 (trade (codes "E1") 100) None ≡ Some Stray }
{}

/// An ExecID under another number is a duplicate, whatever else the report says.
pub fn duplicates()
    ensures again { report_untaken (known false 60 40 (kept 4 (codes "E1") 60 ∷ [])) 5 (trade (codes "E1") 200) (Some 0)
        ≡ Some Duplicate }
    ensures same { report_untaken (known false 60 40 (kept 4 (codes "E1") 60 ∷ [])) 4 (trade (codes "E1") 40) (Some 0)
        ≡ None }
{}

/// A bust undoes a trade of its order while as many shares are filled.
pub fn busts()
    ensures undone { report_untaken (known false 60 40 (kept 4 (codes "E1") 60 ∷ [])) 5 (bust (codes "E2") (codes "E1"))
        (Some 0) ≡ None }
    ensures twice { report_untaken (known false 0 40 (kept 4 (codes "E1") 60 ∷ [])) 6 (bust (codes "E3") (codes "E1"))
        (Some 0) ≡ Some Stray }
    ensures none { report_untaken (known false 60 40 (kept 4 (codes "E1") 60 ∷ [])) 5 (bust (codes "E2") (codes "E9"))
        (Some 0) ≡ Some Stray }
    ensures no_trade { report_untaken (known false 60 40 (kept 3 (codes "E0") 0 ∷ [])) 5 (bust (codes "E2") (codes "E0"))
        (Some 0) ≡ Some Stray }
{}

/// No report on a withdrawn order is taken.
pub fn withdrawn_orders()
    ensures stray { report_untaken (known true 0 100 []) 5 (trade (codes "E1") 100) (Some 0) ≡ Some Stray }
    ensures traded { report_untaken (known true 60 40 []) 5 (trade (codes "E1") 40) (Some 0) ≡ None }
{}
