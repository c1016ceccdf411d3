// Figures of the format, computed: one theorem about the definitions that the contracts use.
#![tactic(auto)]

ghost use Rattle.figures.specs.Figures.{Figures};

// The figures hold.
// kept: it is like the other functions without code, but a fact can be no type parameter.
pub fn worked_figures()
    ensures { Figures }
{}
