// Compares what the libraries give with values from outside: worked examples, stock tools, and a second way to divide.
#![tactic(auto)]

mod division;
mod encodings;
mod identities;
mod signatures;
mod tally;

use tally::Tally;

fn main(rt: HostRuntime) -> anyhow::Result<()> {
    let mut tally = Tally::new(&rt);
    identities::levels(&mut tally)?;
    identities::example(&mut tally)?;
    signatures::examples(&mut tally)?;
    signatures::divided_twice(&mut tally)?;
    encodings::meters(&mut tally)?;
    encodings::draws(&mut tally)?;
    encodings::messages(&mut tally)?;
    tally.end()
}
