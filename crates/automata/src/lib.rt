// Automata, their simulations and their reduction: the plain types that a rule book is made of, and the theorems.
//
// A book's automaton is a nondeterministic finite automaton over any type of symbols. Its states are numbered from 0 and
// each has a mark; its transitions are arrows, each with a label that holds of a set of symbols. What an automaton, a
// simulation and a reduction are is defined in specs/, in the order Below, Automata, Simulation, Reduction, Labels, Book,
// Minimal, and the theorems about them are stated in specs/Theorems. Each function here that ends in `_stand` or
// `_stands` has one of them as its contract: it computes nothing, and the crate is refused without its proof.
#![tactic(auto)]

ghost use Rattle.std.specs.Prelude.{◌≡◌};
ghost use Rattle.automata.specs.Automata.{mark_is_start, mark_accepts, mark};
ghost use Rattle.automata.specs.Theorems.{Simulations, Settling, Inclusion, Steps, Faithful, Reduces, Fewest, Labelled, Books};

// Whether a state is initial, and whether it is accepting.
#[derive(Clone, Copy, PartialEq, Eq, Debug)]
pub enum Mark {
    Neither,
    Initial,
    Accepting,
    Both,
}

// A transition: from the state `source` to the state `target` by each symbol of which the label holds.
#[derive(Clone, Copy, PartialEq, Eq, Debug)]
pub struct Arrow<P> {
    pub source: u16,
    pub label: P,
    pub target: u16,
}

impl Mark {
    pub fn new(initial: bool, accepting: bool) -> Mark
        ensures { result ≡ mark initial accepting }
    {
        match (initial, accepting) {
            (false, false) => Mark::Neither,
            (true, false) => Mark::Initial,
            (false, true) => Mark::Accepting,
            (true, true) => Mark::Both,
        }
    }

    // One test each: a function between the two would be no plainer.
    pub fn is_initial(self) -> bool
        ensures { result ≡ mark_is_start self }
    {
        matches!(self, Mark::Initial | Mark::Both)
    }

    pub fn is_accepting(self) -> bool
        ensures { result ≡ mark_accepts self }
    {
        matches!(self, Mark::Accepting | Mark::Both)
    }
}

// Identity and composition are simulations; the greatest one is a preorder, there is at most one, and it has just the
// pairs that some simulation has.
pub fn simulations_stand<V>()
    ensures { Simulations V }
{}

// Striking out a pair that fails loses no simulation, and where no pair fails the rest is the greatest one.
pub fn settling_stands<V>()
    ensures { Settling V }
{}

// A simulated automaton accepts no word that the other does not.
pub fn inclusion_stands<V>()
    ensures { Inclusion V }
{}

// Names are the least of their classes; what stays is what can be reached, numbered by rising name.
pub fn steps_stand<V>()
    ensures { Steps V }
{}

// The reduced automaton and the original simulate each other and accept the same words.
pub fn faithful_stands<V>()
    ensures { Faithful V }
{}

// The reduced automaton is reduced, and its greatest simulation is the order of the classes.
pub fn reduced_stands<V>()
    ensures { Reduces V }
{}

// Nothing that the original simulates and that simulates the original has fewer states or linked pairs.
pub fn least_stands<V>()
    ensures { Fewest V }
{}

// The labels of classes, by join, meet and complement, hold of just what the classes read.
pub fn labels_stand<P, V>()
    ensures { Labelled P V }
{}

// Marks and arrows that hold a reduction are that automaton, with all that is proved of it, and are the only such book.
pub fn books_stand<P, V>()
    ensures { Books P V }
{}
