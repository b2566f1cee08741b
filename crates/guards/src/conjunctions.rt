// The conjunction kind: labels that must be in, and labels that must be out.
ghost use Rattle.std.specs.Prelude.{◌≡◌, true};
ghost use Rattle.guards.specs.Conjunctions.{conjunction_admits, is_canonical, canonical, words, literal_words, meet_words, empty_words, AreWide};
ghost use Rattle.labels.specs.Guards.{everything, literal_guard, meet, empty};
ghost use Rattle.guards.specs.Conjoined;
ghost use Rattle.std.proofs.Common.{rules};

use labels::{Choice, Guard, Literal, Sign};
use std::marker::Model;

// Both words have bit l set for the labels l that they name.
#[derive(Clone, Copy, PartialEq, Eq)]
pub struct Conjunction {
    required: u64,
    excluded: u64,
}

// Clauses see the two words. Words that contradict each other are all written as one value, so that
// there is one empty guard.
impl Model for Conjunction {
    ghost use Rattle.std.specs.Prelude.{◌≡◌, true};
    ghost use Rattle.guards.specs.Conjunctions.{Words, words, is_canonical};

    ghost Value = { Words };

    ghost view = { λ g. words g.required g.excluded };

    ghost invariant = { λ g. is_canonical (words g.required g.excluded) ≡ true };

    ghost inverse = { λ w. record { required = w.required; excluded = w.excluded } };
}

impl Conjunction {
    // Asks for the labels of one word to be in and for those of the other to be out.
    pub fn of_words(required: u64, excluded: u64) -> Conjunction
        ensures { result ≡ canonical (words required excluded) }
    {
        if required & excluded == 0 {
            Conjunction { required, excluded }
        } else {
            Conjunction::contradiction()
        }
    }

    // The one empty guard.
    fn contradiction() -> Conjunction
        ensures { result ≡ empty_words }
    {
        Conjunction {
            required: u64::MAX,
            excluded: u64::MAX,
        }
    }

    // Asks for the literal's label to be in, or to be out.
    // A function of its own, since each of its three outcomes would owe both promises of `of_literal`.
    fn asking(literal: Literal) -> Conjunction
        ensures { result ≡ literal_words literal }
    {
        match (1u64.checked_shl(literal.label), literal.sign) {
            (None, _) => Conjunction::contradiction(),
            (Some(word), Sign::Plus) => Conjunction::of_words(word, 0),
            (Some(word), Sign::Minus) => Conjunction::of_words(0, word),
        }
    }
}

// It knows all labels of a choice.
impl Guard for Conjunction {
    ghost known = { 64 };

    ghost admitted = { conjunction_admits };

    ghost few = { Prim.search rules };

    ghost ignores = { Conjoined.ignores };

    fn label_count() -> u32 {
        u64::BITS
    }

    #[tactic(auto, using(crate::specs::Conjoined::none_asked))]
    fn everything() -> Conjunction
        ensures admitted { conjunction_admits result ≡ everything }
        ensures value { result ≡ words 0 0 }
    {
        Conjunction::of_words(0, 0)
    }

    #[tactic(auto, using(crate::specs::Conjoined::literal_admits))]
    fn of_literal(literal: Literal) -> Conjunction
        ensures admitted { conjunction_admits result ≡ literal_guard 64 literal }
        ensures value { result ≡ literal_words literal }
    {
        Conjunction::asking(literal)
    }

    #[tactic(auto, using(crate::specs::Conjoined::meet_admits))]
    fn meet(self, other: Conjunction) -> Conjunction
        ensures admitted { conjunction_admits result ≡ meet (conjunction_admits self) (conjunction_admits other) }
        ensures value { result ≡ meet_words self other }
    {
        let required = self.required | other.required;
        let excluded = self.excluded | other.excluded;
        Conjunction::of_words(required, excluded)
    }

    #[tactic(auto, using(crate::specs::Conjoined::by_words))]
    fn admits(self, choice: Choice) -> bool {
        let labels = choice.bits;
        labels & self.required == self.required && labels & self.excluded == 0
    }

    #[tactic(auto, using(crate::specs::Conjoined::empty_by_words, crate::specs::Conjoined::one_empty_lem))]
    fn is_empty(self) -> bool
        ensures admitted { result ≡ empty (conjunction_admits self) }
        ensures one { result ≡ true → self ≡ empty_words }
        ensures canonical { is_canonical self ≡ true }
        ensures wide { AreWide self }
    {
        self.required & self.excluded != 0
    }
}
