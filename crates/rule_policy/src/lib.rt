#![tactic(auto)]

pub mod deciding;
pub mod fault;
pub mod opening;
pub mod policy;
mod read;
pub mod rule;
pub mod rules;
pub mod theorems;
pub mod truth;

#[cfg(test)]
mod tests {
    use crate::policy::RulePolicy;
    use decision::point::DecisionPoint;
    use model::decision::Decision;
    use model::refusal::Refusal;
    use request::request::Request;
    use single::single::SingleRequest;
    use std::test::Fail;

    // subject-id "s", resource-id "b"
    const REQUEST: [u8; 16] = [0, 2, 2, 2, 1, 0, 3, 1, b's', 2, 1, 1, 0, 1, 1, b'b'];

    const CHOSEN: [u8; 16] = [0, 1, 0, 0, 0, 0, 0, 0, 0, 0, 0, 0, 0, 0, 0, 0];

    // Rule 0 wants an attribute that is not there, and then another subject; rule 1 wants the resource.
    const RULES: [u8; 22] = [
        2, 1, 2, 2, 4, 9, 9, 1, b'x', 0, 2, 3, 1, b'z', 1, 1, 1, 0, 1, 1, 1, b'b',
    ];

    // The map of condition 1 of rule 0 has an unnamed bit.
    const UNNAMED: [u8; 9] = [1, 1, 1, 2, 0, 1, 1, 0, 8];

    #[test]
    fn a_later_false_condition_rules_out(rt: HostRuntime) -> Result<(), Fail> {
        let heap = rt.alloc();
        let mut request = Request::new(heap)?;
        assert!(rt; request.open(&REQUEST).is_ok());
        let single = SingleRequest::new(&request, CHOSEN, 2).ok_or("numbers")?;
        let mut policy = RulePolicy::new(heap)?;
        assert!(rt; policy.open(&RULES).is_ok());
        let (decision, _status, place) = policy.decide(&single);
        assert_eq!(rt; decision, Decision::Permit);
        assert!(rt; place == 1);
        Ok(())
    }

    #[test]
    fn a_refusal_has_its_place(rt: HostRuntime) -> Result<(), Fail> {
        let mut policy = RulePolicy::new(rt.alloc())?;
        let Err(fault) = policy.open(&UNNAMED) else {
            return Err(Fail::new("it was accepted"));
        };
        let refusal = Refusal::from(fault);
        assert!(rt; refusal.defect.number() == 12 && refusal.layer() == 3 && refusal.place == 8);
        Ok(())
    }
}
