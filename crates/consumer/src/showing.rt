ghost use Rattle.std.specs.Prelude.{◌≡◌};
ghost use Rattle.consumer.specs.Steps.{blank, accepting, after_fault, wish_ended};

use crate::state::Shown;
use message::flags::ResponseFlags;
use record::kind::RecordKind;

impl<K: RecordKind> Shown<K> {
    // Substitutes, with all flags off.
    pub fn blank() -> Shown<K>
        ensures { result ≡ blank K.RecordKind.format }
    {
        Shown {
            safety_data: K::substitute(),
            fsv_activated: true,
            operator_ack_requested: false,
            operator_ack_provider: false,
            test_mode_activated: false,
        }
    }

    // What an accepted response shows, under a hold or not.
    pub(crate) fn accepting(hold: bool, safety_data: K, flags: ResponseFlags) -> Shown<K>
        ensures { result ≡ accepting K.RecordKind.format hold safety_data flags }
    {
        let substitutes = hold || flags.activate_fsv;
        Shown {
            safety_data: if substitutes {
                K::substitute()
            } else {
                safety_data
            },
            fsv_activated: substitutes,
            operator_ack_requested: hold && !flags.activate_fsv,
            operator_ack_provider: flags.operator_ack_provider,
            test_mode_activated: flags.test_mode_activated,
        }
    }

    // What is shown after a fault, repeated or not.
    pub(crate) fn after_fault(self, repeated: bool) -> Shown<K>
        ensures { result ≡ after_fault K.RecordKind.format repeated self }
    {
        if !repeated {
            return self;
        }
        Shown {
            operator_ack_provider: self.operator_ack_provider,
            test_mode_activated: self.test_mode_activated,
            ..Shown::blank()
        }
    }

    // An edge ends the wish.
    pub(crate) fn after_edge(self, edge: bool) -> Shown<K>
        ensures { result ≡ wish_ended edge self }
    {
        Shown {
            operator_ack_requested: self.operator_ack_requested && !edge,
            ..self
        }
    }
}
