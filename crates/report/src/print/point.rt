use crate::print::described::Described;
use crate::text::Text;
use crate::words::category;
use grants::grants::Grants;
use rule_policy::policy::RulePolicy;
use rule_policy::rule::Condition;
use std::io;

pub fn print_policy(rt: &HostRuntime, policy: &RulePolicy) -> io::Result<()> {
    let count = policy.rules().len();
    println!(rt; "rules: {count}")?;
    for (number, rule) in policy.rules().iter().enumerate() {
        let decision = rule.effect.decision();
        println!(rt; "rule {number}: {decision}")?;
        for (place, one) in policy.conditions(rule).iter().enumerate() {
            print_condition(rt, policy, place, one)?;
        }
    }
    Ok(())
}

fn print_condition(
    rt: &HostRuntime,
    policy: &RulePolicy,
    number: usize,
    condition: &Condition,
) -> io::Result<()> {
    let category = category(condition.category);
    let described = Described {
        id: condition.id,
        data_type: condition.data_type,
        value: policy.text(condition.value),
        issuer: condition.issuer.map(|issuer| policy.text(issuer)),
    };
    let required = if condition.required {
        ", must be present"
    } else {
        ""
    };
    println!(rt; "  condition {number}: category {category}, {described}{required}")
}

pub fn print_grants(rt: &HostRuntime, grants: &Grants) -> io::Result<()> {
    let count = grants.lines().len();
    println!(rt; "lines: {count}")?;
    for (number, line) in grants.lines().iter().enumerate() {
        let subject = Text(grants.text(line.subject));
        let action = Text(grants.text(line.action));
        let resource = Text(grants.text(line.resource));
        println!(rt; "line {number}: {subject} may {action} {resource}")?;
    }
    Ok(())
}
