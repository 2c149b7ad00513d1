ghost use Rattle.link.specs.Laws.{Every_run};

use record::kind::RecordKind;

// Of every kind, every parameter set, every carrier that keeps its relations and every history of calls: a shown record
// is fresh, a repeated fault shows substitutes until an acknowledgment edge, and undisturbed rounds show the record just given.
pub fn laws_hold<K: RecordKind>()
    ensures { Every_run K.RecordKind.format }
{}
