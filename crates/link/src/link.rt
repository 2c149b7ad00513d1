ghost use Rattle.std.specs.Prelude.{◌≡◌, []};
ghost use Rattle.carrier.specs.Place.{Placed};
ghost use Rattle.consumer.specs.Cycled.{Cycled};
ghost use Rattle.link.specs.Links.{ends, Reached, Extends, CycleRuns, ServeRuns};
ghost use Rattle.link.specs.Runs.{Strange};
ghost use Rattle.link.specs.Runs.Call.{placed};
ghost use Rattle.provider.specs.Served.{Served};

use carrier::Carrier;
use carrier::lane::{Lane, PlaceRefusal};
use consumer::consumer::Consumer;
use consumer::event::{CycleAnswer, CycleRefusal};
use consumer::inputs::Inputs;
use consumer::setup::Setup;
use consumer::start::StartNumber;
use message::flags::ResponseFlags;
use message::parameters::Parameters;
use provider::answer::{ServeAnswer, ServeRefusal};
use provider::provider::Provider;
use record::kind::RecordKind;

// A provider and a consumer of records of kind K, with equal parameters, over a carrier.
#[derive(Drop)]
pub struct Link<K, C> {
    consumer: Consumer<K>,
    provider: Provider<K>,
    carrier: C,
}

impl<K: RecordKind, C: Carrier> Link<K, C> {
    // A link just made. Over a carrier with empty lanes its history is empty.
    pub fn new(parameters: Parameters, start: StartNumber, carrier: C) -> Link<K, C>
        ensures setup { result.consumer.setup ≡ record { parameters = parameters; start = start } }
        ensures carrier { result.carrier ≡ carrier }
        ensures reached { (C.Carrier.lanes carrier).up ≡ [] → (C.Carrier.lanes carrier).down ≡ []
            → Reached K.RecordKind.format (C.Carrier.lanes carrier) [] (ends C.Carrier.lanes result) }
    {
        Link {
            consumer: Consumer::new(Setup { parameters, start }),
            provider: Provider::new(parameters),
            carrier,
        }
    }

    // One cycle of the consumer.
    pub fn cycle(
        &mut self,
        inputs: Inputs,
        buffer: &mut [u8],
    ) -> Result<CycleAnswer<K>, CycleRefusal>
        ensures provider { self.new.provider ≡ self.old.provider }
        ensures cycled { Cycled K.RecordKind.format self.old.consumer.setup.parameters self.old.consumer.state inputs
            (C.Carrier.lanes self.old.carrier) buffer.old self.new.consumer.state (C.Carrier.lanes self.new.carrier) buffer.new
            result }
        ensures runs { CycleRuns K.RecordKind.format inputs (ends C.Carrier.lanes self.old) (ends C.Carrier.lanes self.new) result }
    {
        self.consumer.cycle(&mut self.carrier, inputs, buffer)
    }

    // One serve of the provider.
    pub fn serve(
        &mut self,
        given: K,
        flags: ResponseFlags,
        buffer: &mut [u8],
    ) -> Result<ServeAnswer, ServeRefusal>
        ensures consumer { self.new.consumer ≡ self.old.consumer }
        ensures served { Served K.RecordKind.format self.old.provider.parameters self.old.provider.memory given flags
            (C.Carrier.lanes self.old.carrier) buffer.old self.new.provider.memory
            (C.Carrier.lanes self.new.carrier) buffer.new result }
        ensures runs { ServeRuns K.RecordKind.format given flags (ends C.Carrier.lanes self.old)
            (ends C.Carrier.lanes self.new) result }
    {
        self.provider.serve(&mut self.carrier, given, flags, buffer)
    }

    // A stranger's message on a lane. What is promised of runs is promised of strangers that keep their rule.
    pub fn place(&mut self, lane: Lane, message: &[u8]) -> Result<(), PlaceRefusal>
        ensures consumer { self.new.consumer ≡ self.old.consumer }
        ensures provider { self.new.provider ≡ self.old.provider }
        ensures placed { Placed lane message.now (C.Carrier.lanes self.old.carrier) (C.Carrier.lanes self.new.carrier) result }
        ensures runs { Strange K.RecordKind.format self.old.consumer.setup.parameters lane message.now
            → Extends K.RecordKind.format (placed lane message.now result) (ends C.Carrier.lanes self.old)
            (ends C.Carrier.lanes self.new) }
    {
        self.carrier.place(lane, message)
    }
}
