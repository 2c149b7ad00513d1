use carrier::lane::Lane;
use consumer::inputs::Inputs;
use message::flags::ResponseFlags;
use message::making::Settings;
use record::draw::Draw;
use record::meter::Meter;

// The record kinds that a script can name.
#[derive(Clone, Copy)]
pub enum Kind {
    Meter,
    Draw,
}

// The carriers that a script can name.
#[derive(Clone, Copy)]
pub enum Network {
    Publishing,
    // the octets of each lane's memory
    Calling { up: u64, down: u64 },
}

// A record of one kind or the other.
#[derive(Clone, Copy)]
pub enum Given {
    Meter(Meter),
    Draw(Draw),
}

// What the next link is made with.
#[derive(Drop)]
pub enum Setting {
    Kind { kind: Kind },
    Parameters { settings: Settings },
    Carrier { network: Network },
    Disturb { codes: Vec<u8> },
}

// What is done with the link.
#[derive(Drop)]
pub enum Call {
    Cycle {
        inputs: Inputs,
        buffer: u64,
    },
    Serve {
        given: Given,
        flags: ResponseFlags,
        buffer: u64,
    },
    Place {
        lane: Lane,
        octets: Vec<u8>,
    },
}

// What a line of a script asks.
#[derive(Drop)]
pub enum Line {
    Nothing,
    Setting { setting: Setting },
    Link { start: u32 },
    Call { call: Call },
}
