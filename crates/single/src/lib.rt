#![tactic(auto)]

pub mod only;
pub mod seen;
pub mod short;
pub mod shown;
pub mod single;
pub mod value;
pub mod view;
pub mod write;
mod writer;

#[cfg(test)]
mod tests {
    use crate::short::TooShort;
    use crate::single::SingleRequest;
    use crate::value::same_bytes;
    use request::request::Request;
    use std::test::Fail;

    // a resource with resource-id "a" and scope "C", and a subject with subject-id "s"
    const BYTES: [u8; 23] = [
        0, 2, 3, 1, 7, 2, 0, 1, 1, b'a', 0, 2, 1, b'C', 2, 2, 1, 0, 3, 1, b's', 0, 0,
    ];

    const CHOSEN: [u8; 16] = [1, 0, 0, 0, 0, 0, 0, 0, 0, 0, 0, 0, 0, 0, 0, 0];

    #[test]
    fn a_node_hides_the_scope(rt: HostRuntime) -> Result<(), Fail> {
        let mut request = Request::new(rt.alloc())?;
        assert!(rt; request.open(&BYTES[0..21]).is_ok());
        let plain = SingleRequest::new(&request, CHOSEN, 2).ok_or("numbers")?;
        assert!(rt; plain.attributes(1) == 2);
        let node = plain.at(b"n");
        assert!(rt; node.attributes(1) == 1);
        let id = node.attribute(1, 0).ok_or("no resource-id")?;
        assert!(rt; same_bytes(id.value(node.bytes(), node.name()), b"n"));
        Ok(())
    }

    #[test]
    fn a_buffer_is_filled_or_left(rt: HostRuntime) -> Result<(), Fail> {
        let mut request = Request::new(rt.alloc())?;
        assert!(rt; request.open(&BYTES[0..21]).is_ok());
        let plain = SingleRequest::new(&request, CHOSEN, 2).ok_or("numbers")?;
        let node = plain.at(b"n");
        let mut buffer = [9; 17];
        assert_eq!(rt;
            node.write(&mut buffer[0..15]),
            Err(TooShort { needed: 16 })
        );
        assert!(rt; buffer[0] == 9);
        assert_eq!(rt; node.write(&mut buffer), Ok(16));
        let expected = [0, 2, 2, 2, 1, 0, 3, 1, b's', 2, 1, 1, 0, 1, 1, b'n', 9];
        assert!(rt; same_bytes(&buffer, &expected));
        Ok(())
    }
}
