//! What a message says of a rule.

ghost use Rattle.std.specs.Prelude.{◌≡◌};
ghost use Rattle.log_rules.specs.Verdict.{again_if, held_if, left_broken};

/// What a message says of a rule.
#[derive(Clone, Copy, Debug, PartialEq, Eq)]
pub enum Verdict {
    /// The rule has nothing to do with it.
    Unasked,
    Held,
    Broken,
    /// Broken once more by what a message before it was named for.
    Again,
}

impl Verdict {
    /// The rule is held where its test is passed.
    pub(crate) fn held_if(is_held: bool) -> Verdict
        ensures { result ≡ held_if is_held }
    {
        if is_held {
            Verdict::Held
        } else {
            Verdict::Broken
        }
    }

    /// The same; where it was named before why the rule is broken, it is broken again.
    pub(crate) fn again_if(self, is_named: bool) -> Verdict
        ensures { result ≡ again_if is_named self }
    {
        match self {
            Verdict::Broken if is_named => Verdict::Again,
            verdict => verdict,
        }
    }

    /// Whether a rule is still broken behind a message that says this of it, where it was so or not before.
    pub(crate) fn leaves_broken(self, was_broken: bool) -> bool
        ensures { result ≡ left_broken was_broken self }
    {
        match self {
            Verdict::Unasked => was_broken,
            Verdict::Held => false,
            Verdict::Broken | Verdict::Again => true,
        }
    }
}
