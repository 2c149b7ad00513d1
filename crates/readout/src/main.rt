// Signs one meter reading for one request and shows every octet on the way; then damages the response octet by octet.
#![tactic(auto)]

mod bay;
mod damage;
mod exchange;
mod layout;
mod link;
mod outcome;
mod rows;
mod skid;
mod value;

use crate::exchange::Exchange;
use std::io;

fn main(rt: HostRuntime) -> io::Result<()> {
    let parameters = link::parameters();
    let request = bay::ask(&parameters);
    let reading = skid::READING;
    let message = skid::answer(&parameters, &request);
    let exchange = Exchange {
        parameters,
        request,
        reading,
        message,
    };
    link::show(&rt, &parameters)?;
    bay::show_request(&rt, &request)?;
    skid::show_reading(&rt)?;
    skid::show_response(&rt, &exchange)?;
    bay::show_checks(&rt, &exchange)?;
    damage::show(&rt, &exchange)
}
