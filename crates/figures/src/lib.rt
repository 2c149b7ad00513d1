// Worked figures of the rules, proved in one table.
#![tactic(auto)]

ghost use Rattle.figures.specs.Figures.{Figures};

// The figures hold, each as the table says.
pub fn worked_figures()
    ensures { Figures }
{}
