ghost use Rattle.std.specs.Prelude.{◌≡◌, ◌/◌, ◌%◌, ◌==◌, [], ◌∷◌};
ghost use Rattle.message.specs.Flags.{flag_octet, flag_at, request_octet, request_flags, response_octet, response_flags};

// What a request tells the provider of the consumer.
#[derive(Clone, Copy, Debug, Default, PartialEq, Eq)]
pub struct RequestFlags {
    // a fault or an expiry came since the request before
    pub communication_error: bool,
    // the consumer wishes for an operator's acknowledgment
    pub operator_ack_requested: bool,
    // the consumer shows fail-safe substitute values
    pub fsv_activated: bool,
}

// What a response tells the consumer of the provider. A struct of its own, since these flags have other names and meanings
// than those of a request; the bits of both are packed below.
#[derive(Clone, Copy, Debug, Default, PartialEq, Eq)]
pub struct ResponseFlags {
    // the provider passes on an operator's acknowledgment
    pub operator_ack_provider: bool,
    // the provider asks for fail-safe substitute values
    pub activate_fsv: bool,
    // the provider is in test mode
    pub test_mode_activated: bool,
}

// The octet of three flags, the first in the lowest bit.
fn packed(a: bool, b: bool, c: bool) -> u8
    ensures { result ≡ flag_octet a b c }
{
    u8::from(a) + 2 * u8::from(b) + 4 * u8::from(c)
}

// The three lowest bits of an octet, the lowest first; the others are not read.
fn unpacked(octet: u8) -> [bool; 3]
    ensures { result ≡ (octet % 2 == 1) ∷ flag_at 2 octet ∷ flag_at 4 octet ∷ [] }
{
    [octet % 2 == 1, octet / 2 % 2 == 1, octet / 4 % 2 == 1]
}

impl From<u8> for RequestFlags {
    ghost from_gives = { λ octet r. r ≡ request_flags octet };

    fn from(octet: u8) -> RequestFlags {
        let [communication_error, operator_ack_requested, fsv_activated] = unpacked(octet);
        RequestFlags {
            communication_error,
            operator_ack_requested,
            fsv_activated,
        }
    }
}

impl From<RequestFlags> for u8 {
    ghost from_gives = { λ flags r. r ≡ request_octet flags };

    fn from(flags: RequestFlags) -> u8 {
        packed(
            flags.communication_error,
            flags.operator_ack_requested,
            flags.fsv_activated,
        )
    }
}

impl From<u8> for ResponseFlags {
    ghost from_gives = { λ octet r. r ≡ response_flags octet };

    fn from(octet: u8) -> ResponseFlags {
        let [operator_ack_provider, activate_fsv, test_mode_activated] = unpacked(octet);
        ResponseFlags {
            operator_ack_provider,
            activate_fsv,
            test_mode_activated,
        }
    }
}

impl From<ResponseFlags> for u8 {
    ghost from_gives = { λ flags r. r ≡ response_octet flags };

    fn from(flags: ResponseFlags) -> u8 {
        packed(
            flags.operator_ack_provider,
            flags.activate_fsv,
            flags.test_mode_activated,
        )
    }
}
