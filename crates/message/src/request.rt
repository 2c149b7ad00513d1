ghost use Rattle.std.specs.Prelude.{◌≡◌};
ghost use Rattle.message.specs.Layout.{request_octets, request_read};

use crate::flags::RequestFlags;

// A request: it asks the provider for a response.
#[derive(Clone, Copy, Debug, PartialEq, Eq)]
pub struct Request {
    pub consumer_id: u32,
    pub monitoring_number: u32,
    pub flags: RequestFlags,
}

impl Request {
    pub const LENGTH: usize = 9;

    // A method, since `<[u8; 9]>::from(request)` at each place of use would say less than this name.
    pub fn octets(&self) -> [u8; Self::LENGTH]
        ensures { result ≡ request_octets self.now }
    {
        let [c0, c1, c2, c3] = self.consumer_id.to_le_bytes();
        let [n0, n1, n2, n3] = self.monitoring_number.to_le_bytes();
        let flags = u8::from(self.flags);
        [c0, c1, c2, c3, n0, n1, n2, n3, flags]
    }

    // The request that nine octets are; any other number of octets is none. That is no error, and nobody would read the
    // error type that a `TryFrom` needs.
    pub fn read(octets: &[u8]) -> Option<Request>
        ensures { result ≡ request_read octets.now }
    {
        let &[c0, c1, c2, c3, n0, n1, n2, n3, flags] = octets else {
            return None;
        };
        Some(Request {
            consumer_id: u32::from_le_bytes([c0, c1, c2, c3]),
            monitoring_number: u32::from_le_bytes([n0, n1, n2, n3]),
            flags: RequestFlags::from(flags),
        })
    }
}
