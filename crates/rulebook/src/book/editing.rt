// The edits: states and arrows, under the ticket.

ghost use Rattle.std.specs.Prelude.{◌≡◌, ◌<◌, ◌≤◌, [], ◌∷◌, ◌++◌, length, slice_index_or, slice_set};
ghost use Rattle.std.specs.List.{remove};
ghost use Rattle.automata.specs.declared.Mark.TheVariants.{Neither};
ghost use Rattle.automata.specs.Automata.{Within};
ghost use Rattle.rulebook.specs.declared.parts.Condition.TheVariants.{Open};
ghost use Rattle.rulebook.specs.Model.{with_marks, with_arrows, state_exists, has_room, adding_state, re_marking, adding_arrow, striking};
ghost use Rattle.rulebook.specs.View.{view, number_of, Leaves, Edits};

use super::*;
use labels::LabelAlgebra;

impl<'t, P> Book<'t, P> {
    // Whether `p` is a state.
    pub(super) fn has_state(&self, p: u16) -> bool
        ensures { result ≡ state_exists (view self.now) p }
    {
        usize::from(p) < self.inner.states
    }

    // Whether one more arrow has room.
    fn has_room(&self) -> bool
        ensures { result ≡ has_room (view self.now) 1 }
    {
        self.inner.arrows < self.slots.len().min(8192)
    }

    // Writes a mark after the others, and says where.
    fn push_mark(&mut self, mark: Mark) -> usize
        requires open { self.old.inner.condition ≡ Open }
        requires few { self.old.inner.states < 256 }
        ensures says { result ≡ length (view self.old).marks }
        ensures few { length (view self.old).marks < 256 }
        ensures leaves { Leaves (with_marks (view self.old) ((view self.old).marks ++ (mark ∷ []))) self.old self.new }
    {
        let place = self.inner.states;
        self.inner.marks[place] = mark;
        self.inner.states = place + 1;
        place
    }

    // Writes a mark over another, and answers the old one.
    fn write_mark(&mut self, state: usize, mark: Mark) -> Mark
        requires { state < self.old.inner.states }
        ensures says { result ≡ slice_index_or (view self.old).marks state Neither }
        ensures leaves { Leaves (with_marks (view self.old) (slice_set (view self.old).marks state mark)) self.old self.new }
    {
        let old = self.inner.marks[state];
        self.inner.marks[state] = mark;
        old
    }

    // Adds a state at the end of the list: declines with 8, 7, 1, and answers the state's number.
    pub fn add_state(&mut self, ticket: &Ticket, mark: Mark) -> Result<u16, Refusal>
        ensures { Edits (adding_state (view self.old) (number_of ticket.now) mark) result self.old self.new }
    {
        self.admit(ticket, Act::Edits)?;
        if self.inner.states >= 256 {
            return Err(Refusal::StatesFull);
        }
        Ok(self.push_mark(mark) as u16)
    }

    // Gives a state another mark: declines with 8, 7, 2, and answers the old mark.
    pub fn re_mark(&mut self, ticket: &Ticket, state: u16, mark: Mark) -> Result<Mark, Refusal>
        ensures { Edits (re_marking (view self.old) (number_of ticket.now) state mark) result self.old self.new }
    {
        self.admit(ticket, Act::Edits)?;
        if !self.has_state(state) {
            return Err(Refusal::NoSuchState);
        }
        Ok(self.write_mark(usize::from(state), mark))
    }
}

impl<'t, P: Copy> Book<'t, P> {
    // Writes an arrow after the others.
    fn put(&mut self, arrow: Arrow<P>)
        requires few { self.old.inner.arrows < 8192 }
        requires room { self.old.inner.arrows < length self.old.slots.now }
        requires ends { Within self.old.inner.states arrow }
        ensures { Leaves (with_arrows (view self.old) ((view self.old).arrows ++ (arrow ∷ []))) self.old self.new }
    {
        let place = self.inner.arrows;
        self.slots[place] = arrow;
        self.inner.arrows = place + 1;
    }

    // Adds an arrow at the end of the list: declines with 8, 7, 2, 4, 3, and answers the arrow's place.
    pub fn add_arrow<L: LabelAlgebra<Predicate = P>>(
        &mut self,
        labels: &L,
        ticket: &Ticket,
        source: u16,
        label: P,
        target: u16,
    ) -> Result<usize, Refusal>
        ensures { Edits (adding_arrow (view self.old) (number_of ticket.now) source label target (L.LabelAlgebra.satisfiable labels.now label)) result self.old self.new }
    {
        self.admit(ticket, Act::Edits)?;
        if !self.has_state(source) || !self.has_state(target) {
            return Err(Refusal::NoSuchState);
        }
        if !labels::is_satisfiable(labels, label) {
            return Err(Refusal::EmptyLabel);
        }
        if !self.has_room() {
            return Err(Refusal::TooSmall);
        }
        let place = self.inner.arrows;
        self.put(Arrow {
            source,
            label,
            target,
        });
        Ok(place)
    }

    // Strikes an arrow: declines with 8, 7, 5. Its room serves again.
    pub fn strike(&mut self, ticket: &Ticket, place: usize) -> Result<(), Refusal>
        ensures { Edits (striking (view self.old) (number_of ticket.now) place) result self.old self.new }
    {
        self.admit(ticket, Act::Edits)?;
        if place >= self.inner.arrows {
            return Err(Refusal::NoSuchArrow);
        }
        let len = self.inner.arrows;
        self.slots.copy_within(place + 1..len, place);
        self.inner.arrows = len - 1;
        Ok(())
    }
}
