// Requests, the flags of both messages, and monitoring numbers.
use message::flags::{RequestFlags, ResponseFlags};
use message::number::next_number;
use message::request::Request;
use std::test::Fail;

#[test]
fn flags(rt: HostRuntime) {
    for octet in 0..=255u8 {
        let [lowest, second, third] = [octet & 1 != 0, octet & 2 != 0, octet & 4 != 0];
        let request = RequestFlags {
            communication_error: lowest,
            operator_ack_requested: second,
            fsv_activated: third,
        };
        let response = ResponseFlags {
            operator_ack_provider: lowest,
            activate_fsv: second,
            test_mode_activated: third,
        };
        assert_eq!(rt; RequestFlags::from(octet), request, "{octet}");
        assert_eq!(rt; ResponseFlags::from(octet), response, "{octet}");
        assert_eq!(rt; u8::from(request), octet & 7, "{octet}");
        assert_eq!(rt; u8::from(response), octet & 7, "{octet}");
    }
}

#[test]
fn requests(rt: HostRuntime) -> Result<(), Fail> {
    let octets = [0xD4, 0xC3, 0xB2, 0xA1, 0x04, 0x03, 0x02, 0x01, 0xFD, 0x00];
    assert_eq!(rt; Request::read(&octets[..8]), None);
    assert_eq!(rt; Request::read(&octets), None);
    let read = Request::read(&octets[..9]).ok_or("nine octets are no request")?;
    assert_eq!(rt; read.consumer_id, 0xA1B2_C3D4);
    assert_eq!(rt; read.monitoring_number, 0x0102_0304);
    assert_eq!(rt;
        read.octets(),
        [0xD4, 0xC3, 0xB2, 0xA1, 0x04, 0x03, 0x02, 0x01, 0x05]
    );
    Ok(())
}

#[test]
fn next_numbers(rt: HostRuntime) {
    for (number, next) in [
        (0, 1),
        (255, 256),
        (256, 257),
        (4_294_967_294, 4_294_967_295),
        (4_294_967_295, 256),
    ] {
        assert_eq!(rt; next_number(number), next, "after {number}");
    }
}
