//! The words of a rule.

ghost use Rattle.std.specs.Prelude.{◌≡◌, length};

use log_rules::{RULES, Rule};

/// The words of a rule: its name, what it asks for, where the standard has it, and what to do where it is broken.
#[derive(Clone, Copy, Debug, PartialEq, Eq)]
pub struct RuleWords {
    pub name: &'static str,
    pub asks: &'static str,
    pub section: &'static str,
    pub advice: &'static str,
}

impl RuleWords {
    /// The words of a rule.
    fn of(rule: Rule) -> RuleWords {
        RuleWords {
            name: rule.name(),
            asks: rule.text(),
            section: rule.section(),
            advice: rule.advice(),
        }
    }

    /// Those of all rules, in the order of `RULES`.
    pub fn of_all() -> [RuleWords; 22]
        ensures { length result ≡ 22 }
    {
        let mut words = [RuleWords::of(Rule::Readable); 22];
        for place in 0..22 {
            words[place] = RuleWords::of(RULES[place]);
        }
        words
    }
}
