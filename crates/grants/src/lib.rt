#![tactic(auto)]

mod bisect;
pub mod deciding;
pub mod fault;
pub mod grants;
pub mod line;
pub mod lines;
pub mod opening;
mod read;
mod table;
mod texts;
pub mod theorems;

#[cfg(test)]
mod tests {
    use crate::grants::Grants;
    use decision::point::DecisionPoint;
    use model::decision::Decision;
    use model::refusal::Refusal;
    use request::request::Request;
    use single::single::SingleRequest;
    use std::test::Fail;

    // subject-id "s", resource-id "b", action-id "r"
    const REQUEST: [u8; 23] = [
        0, 3, 2, 2, 1, 0, 3, 1, b's', 2, 1, 1, 0, 1, 1, b'b', 2, 3, 1, 0, 4, 1, b'r',
    ];

    const CHOSEN: [u8; 16] = [0, 1, 2, 0, 0, 0, 0, 0, 0, 0, 0, 0, 0, 0, 0, 0];

    // s r a, s r b, s r b
    const LINES: [u8; 20] = [
        0, 3, 1, b's', 1, b'r', 1, b'a', 1, b's', 1, b'r', 1, b'b', 1, b's', 1, b'r', 1, b'b',
    ];

    #[test]
    fn the_first_line_with_the_same_bytes_grants(rt: HostRuntime) -> Result<(), Fail> {
        let heap = rt.alloc();
        let mut request = Request::new(heap)?;
        assert!(rt; request.open(&REQUEST).is_ok());
        let single = SingleRequest::new(&request, CHOSEN, 3).ok_or("numbers")?;
        let mut grants = Grants::new(heap)?;
        assert!(rt; grants.open(&LINES).is_ok());
        let (decision, _status, place) = grants.decide(&single);
        assert_eq!(rt; decision, Decision::Permit);
        assert!(rt; place == 1);
        let without_action = SingleRequest::new(&request, CHOSEN, 2).ok_or("numbers")?;
        let (decision, _status, _place) = grants.decide(&without_action);
        assert_eq!(rt; decision, Decision::NotApplicable);
        Ok(())
    }

    // t r b, s r b, s q b, s r a, s r b, s r c
    const UNORDERED: [u8; 38] = [
        0, 6, 1, b't', 1, b'r', 1, b'b', 1, b's', 1, b'r', 1, b'b', 1, b's', 1, b'q', 1, b'b', 1,
        b's', 1, b'r', 1, b'a', 1, b's', 1, b'r', 1, b'b', 1, b's', 1, b'r', 1, b'c',
    ];

    #[test]
    fn lines_may_stand_in_any_order(rt: HostRuntime) -> Result<(), Fail> {
        let heap = rt.alloc();
        let mut request = Request::new(heap)?;
        assert!(rt; request.open(&REQUEST).is_ok());
        let single = SingleRequest::new(&request, CHOSEN, 3).ok_or("numbers")?;
        let mut grants = Grants::new(heap)?;
        assert!(rt; grants.open(&UNORDERED).is_ok());
        let (decision, _status, place) = grants.decide(&single);
        assert_eq!(rt; decision, Decision::Permit);
        assert!(rt; place == 1);
        Ok(())
    }

    #[test]
    fn a_refusal_has_its_place(rt: HostRuntime) -> Result<(), Fail> {
        let mut grants = Grants::new(rt.alloc())?;
        let Err(fault) = grants.open(&LINES[0..19]) else {
            return Err(Fail::new("it was accepted"));
        };
        let refusal = Refusal::from(fault);
        assert!(rt; refusal.defect.number() == 11 && refusal.layer() == 2 && refusal.place == 19);
        Ok(())
    }
}
