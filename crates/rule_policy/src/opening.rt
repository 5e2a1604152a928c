ghost use Rattle.std.specs.Prelude.{◌≡◌, ◌≤◌, [], length, IfOk, OnErr};
ghost use Rattle.model.specs.PointFiles.{read_policy};
ghost use Rattle.model.specs.PointSpelling.{PolicySpelling};
ghost use Rattle.wire.specs.Span.{part as part_of};
ghost use Rattle.request.specs.Answered.{answered, OpenedAs};
ghost use Rattle.rule_policy.specs.Held.{conditions_of};
ghost use Rattle.rule_policy.specs.Place.{rules_of, rules_shown, conditions_shown};
ghost use Rattle.rule_policy.specs.Refused.{in_policy_fault};

use crate::fault::PolicyFault;
use crate::policy::RulePolicy;
use crate::rule::{Condition, Rule};
use crate::rules::Rules;
use std::alloc::{AllocError, Global};
use std::mem::swap;
use wire::span::{Span, part};

impl<'a> RulePolicy<'a> {
    // Reserves what any file can need; only this call can want memory. A new policy has no rules.
    pub fn new(heap: Global) -> Result<RulePolicy<'a>, AllocError>
        ensures { IfOk result (λ p. rules_of p ≡ []) }
    {
        let index = Rules::new(heap)?;
        let spare = Rules::new(heap)?;
        Ok(RulePolicy {
            bytes: &[],
            index,
            spare,
        })
    }

    // Reads the policy that the bytes spell; a refusal leaves the one before.
    pub fn open(&mut self, bytes: &'a [u8]) -> Result<(), PolicyFault>
        ensures answer { answered in_policy_fault (rules_of self.new) result ≡ read_policy bytes.now }
        ensures spelled { OpenedAs PolicySpelling bytes.now (rules_of self.new) result }
        ensures kept { OnErr result (rules_of self.new ≡ rules_of self.old) }
    {
        self.spare.read(bytes)?;
        swap(&mut self.index, &mut self.spare);
        self.bytes = bytes;
        Ok(())
    }

    pub fn rules(&self) -> &[Rule]
        ensures few { length result.now ≤ 64 }
        ensures shown { rules_shown self.now result.now ≡ rules_of self.now }
    {
        self.index.rules.as_slice()
    }

    // The conditions of a rule.
    pub fn conditions(&self, rule: &Rule) -> &[Condition]
        ensures { conditions_of self.now.bytes.now result.now ≡ conditions_shown self.now rule.now.conditions }
    {
        part(self.index.conditions.as_slice(), rule.conditions)
    }

    // A value or an issuer: the part of the file's bytes that it is.
    pub fn text(&self, text: Span) -> &'a [u8]
        ensures { result.now ≡ part_of self.now.bytes.now text }
    {
        part(self.bytes, text)
    }
}
