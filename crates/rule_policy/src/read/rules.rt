ghost use Rattle.std.specs.Prelude.{◌≡◌, ◌+◌, ◌≤◌, [], IfOk, vec_len, vec_capacity};
ghost use Rattle.model.specs.PointFiles.{condition_fields, condition_list, rule_fields, policy_fields, effect_of, read_policy};
ghost use Rattle.wire.specs.Told.{Reads, in_field};
ghost use Rattle.request.specs.Answered.{Answers};
ghost use Rattle.request.specs.Tables.{Grows, span_end};
ghost use Rattle.rule_policy.specs.Held.{decides, condition_of, conditions_at, rule_at, rules_of_held};
ghost use Rattle.rule_policy.specs.Refused.{in_rule_fault, in_policy_fault};

use crate::fault::{PolicyFault, RuleFault};
use crate::rule::{Condition, Effect, Rule};
use crate::rules::Rules;
use model::codes::STRING;
use model::item::Kind;
use std::alloc::{AllocError, Global};
use wire::fault::{Fault, ItemFault};
use wire::reader::Reader;
use wire::span::Span;

fn read_condition(reader: &mut Reader<'_>) -> Result<Condition, Fault>
    ensures { Reads in_field condition_of reader.old result reader.new condition_fields }
{
    let map = reader.map(0b111)?;
    let category = reader.code(1, 255)?;
    let id = reader.code(1, 255)?;
    let data_type = if map & 1 != 0 {
        reader.code(2, 255)?
    } else {
        STRING
    };
    let issuer = if map & 2 != 0 {
        Some(reader.text(1, 64)?)
    } else {
        None
    };
    let value = reader.text(0, 64)?;
    Ok(Condition {
        required: map & 4 != 0,
        category,
        id,
        data_type,
        issuer,
        value,
    })
}

fn read_conditions(reader: &mut Reader<'_>, table: &mut Vec<Condition>) -> Result<Span, RuleFault>
    requires { vec_len table.old + 4 ≤ vec_capacity table.old }
    ensures read { Reads in_rule_fault (conditions_at table.new) reader.old result reader.new condition_list }
    ensures grows { Grows 4 table.old table.new }
    ensures inside { IfOk result (λ s. span_end s ≤ vec_len table.new) }
{
    let first = table.len();
    let count = usize::from(reader.code(1, 4)?);
    for number in 0..count {
        let read = read_condition(reader);
        let condition = read.map_err(|fault| ItemFault::new(Kind::Condition, number, fault))?;
        table.push_reserved(condition);
    }
    Ok(Span { first, count })
}

// The effect of a code that is 1 or 2. No TryFrom: the field has been read, so an error could not come.
fn effect(code: u8) -> Effect
    ensures { decides result ≡ effect_of code }
{
    match code {
        1 => Effect::Permit,
        _ => Effect::Deny,
    }
}

fn read_rule(reader: &mut Reader<'_>, table: &mut Vec<Condition>) -> Result<Rule, RuleFault>
    requires { vec_len table.old + 4 ≤ vec_capacity table.old }
    ensures read { Reads in_rule_fault (rule_at table.new) reader.old result reader.new rule_fields }
    ensures grows { Grows 4 table.old table.new }
    ensures inside { IfOk result (λ x. span_end x.conditions ≤ vec_len table.new) }
{
    let map = reader.map(0b1)?;
    let effect = effect(reader.code(1, 2)?);
    let conditions = if map & 1 != 0 {
        read_conditions(reader, table)?
    } else {
        Span { first: 0, count: 0 }
    };
    Ok(Rule { effect, conditions })
}

impl Rules {
    pub(crate) fn new(heap: Global) -> Result<Rules, AllocError>
        ensures { IfOk result (λ i. rules_of_held [] i ≡ []) }
    {
        let rules = Vec::with_capacity(heap, 64)?;
        let conditions = Vec::with_capacity(heap, 256)?;
        Ok(Rules { rules, conditions })
    }

    fn read_rules(&mut self, reader: &mut Reader<'_>) -> Result<(), PolicyFault>
        requires { (vec_len self.old.rules ≡ 0) × (vec_len self.old.conditions ≡ 0) }
        ensures { Reads in_policy_fault (λ bytes done. rules_of_held bytes self.new) reader.old result reader.new policy_fields }
    {
        let count = usize::from(reader.code(1, 64)?);
        for number in 0..count {
            let read = read_rule(reader, &mut self.conditions);
            let rule = read.map_err(|fault| ItemFault::new(Kind::Rule, number, fault))?;
            self.rules.push_reserved(rule);
        }
        Ok(())
    }

    // What is held after a refusal has no meaning.
    pub(crate) fn read(&mut self, bytes: &[u8]) -> Result<(), PolicyFault>
        ensures { Answers in_policy_fault (rules_of_held bytes.now self.new) result (read_policy bytes.now) }
    {
        self.rules.clear();
        self.conditions.clear();
        let mut reader = Reader::new(bytes);
        self.read_rules(&mut reader)?;
        reader.end()?;
        Ok(())
    }
}
