//! Laws of filter lists. Each is the contract of a function that does nothing.

ghost use Rattle.model_laws.specs.Hidden.{HiddenRulesMayGo};

/// A filter list permits and denies the same packets where rules are left out of it that decide none: one of them, some or all.
#[tactic(auto, using(crate::proofs::LeftOut::hidden_rules_go))]
pub fn hidden_rules_may_go()
    ensures { HiddenRulesMayGo }
{}
