// A down fetch: is the response placed anew before it, and what does it show? The rows are constants, and each has both: the
// flag does not say whether there is a remark.
#[derive(Clone, Copy)]
pub struct Step<'a> {
    pub places: bool,
    pub remark: &'a str,
}

pub const PUBLISHED: [Step<'static>; 2] = [
    Step {
        places: true,
        remark: "the latest message",
    },
    Step {
        places: false,
        remark: "it stands and is shown again",
    },
];

pub const CALLED: [Step<'static>; 2] = [
    Step {
        places: true,
        remark: "the message that waited longest",
    },
    Step {
        places: false,
        remark: "a fetched message is gone",
    },
];

// The script of a disturber over a calling carrier: pass, lose, repeat, damage.
pub const CODES: [u8; 4] = [0, 1, 2, 3];

pub const DISTURBED: [Step<'static>; 5] = [
    Step {
        places: true,
        remark: "pass: handed out as it came, and kept because it is sound",
    },
    Step {
        places: true,
        remark: "lose: taken from the lane, and not handed out",
    },
    Step {
        places: false,
        remark: "repeat: nothing waits in the lane, and the kept message comes again",
    },
    Step {
        places: true,
        remark: "damage: the lowest bit of the last octet is flipped",
    },
    Step {
        places: false,
        remark: "no code is left: passes, and nothing waits in the lane",
    },
];

// The scripts of two disturbers, the upper over the lower. A repeat of the upper uses no code of the lower.
pub const UPPER: [u8; 6] = [0, 2, 0, 3, 2, 0];

pub const LOWER: [u8; 4] = [3, 0, 3, 1];

pub const TWICE: [Step<'static>; 6] = [
    Step {
        places: true,
        remark: "pass over damage: handed out as it came, and not kept",
    },
    Step {
        places: false,
        remark: "repeat: nothing sound came yet, so nothing is kept",
    },
    Step {
        places: false,
        remark: "pass over pass",
    },
    Step {
        places: false,
        remark: "damage over damage: it would be sound again, and is not handed out",
    },
    Step {
        places: false,
        remark: "repeat: the message kept by the last pass",
    },
    Step {
        places: false,
        remark: "pass over lose",
    },
];
