//! Worked examples of condition texts, as theorems. A function here computes nothing: its contract is
//! what is proved.

#![tactic(auto)]

ghost use Rattle.samples.specs.Conditions.{ConditionSamples};

pub fn condition_samples()
    ensures { ConditionSamples }
{}
