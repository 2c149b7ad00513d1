ghost use Rattle.link.specs.Examples.{Examples};

// The laws speak of something: rounds that show a record can happen over a publishing and over a calling carrier, and so
// can a repeated fault, its hold and the acknowledgment that ends it.
pub fn examples_happen()
    ensures { Examples }
{}
