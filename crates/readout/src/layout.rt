ghost use Rattle.std.specs.Prelude.{◌<◌};

// How many octets a response has, and how many of them are signed.
pub const LENGTH: usize = 32;

pub const SIGNED: usize = 28;

// A field of a message: its name, its first octet and its last. No message here is longer than a response.
#[derive(Clone, Copy)]
pub struct Field {
    pub name: &'static str,
    pub first: usize,
    pub last: usize,
    ghost inside: { last < 32 },
}

// A request.
pub const ASKED_BY: Field = Field {
    name: "consumer id",
    first: 0,
    last: 3,
};

pub const ASKED_NUMBER: Field = Field {
    name: "monitoring number",
    first: 4,
    last: 7,
};

pub const ASKED_FLAGS: Field = Field {
    name: "flags",
    first: 8,
    last: 8,
};

// A response with a meter record, which stands first.
pub const PULSES: Field = Field {
    name: "record: pulses",
    first: 0,
    last: 3,
};

pub const TEMPERATURE: Field = Field {
    name: "record: temperature",
    first: 4,
    last: 5,
};

pub const VALID: Field = Field {
    name: "record: valid",
    first: 6,
    last: 6,
};

pub const FLAGS: Field = Field {
    name: "flags",
    first: 7,
    last: 7,
};

pub const IDENTITY_1: Field = Field {
    name: "identity 1",
    first: 8,
    last: 11,
};

pub const IDENTITY_2: Field = Field {
    name: "identity 2",
    first: 12,
    last: 15,
};

pub const IDENTITY_3: Field = Field {
    name: "identity 3",
    first: 16,
    last: 19,
};

pub const CONSUMER_ID: Field = Field {
    name: "consumer id",
    first: 20,
    last: 23,
};

pub const NUMBER: Field = Field {
    name: "monitoring number",
    first: 24,
    last: 27,
};

pub const SIGNATURE: Field = Field {
    name: "signature",
    first: 28,
    last: 31,
};

// A response from its first octet to its last.
pub const RESPONSE: [Field; 10] = [
    PULSES,
    TEMPERATURE,
    VALID,
    FLAGS,
    IDENTITY_1,
    IDENTITY_2,
    IDENTITY_3,
    CONSUMER_ID,
    NUMBER,
    SIGNATURE,
];
