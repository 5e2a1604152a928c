ghost use Rattle.rule_policy.specs.Meaning.{FirstDecidingRule};

// A policy's answer is that of the first rule that applies or is Indeterminate: rule n answers exactly where it
// does so and every earlier rule has a false condition. Where there is no such rule the policy is not applicable.
pub fn first_deciding_rule_answers() -> u8
    ensures { FirstDecidingRule }
{
    0
}
