// What a book tells: whether pairs are kept, its rows, whether words are accepted, and what stands in it.

ghost use Rattle.std.specs.Prelude.{◌≡◌, ℕ, ◌<◌, ◌≤◌, not, length, Decides, MatchResult, slice_index};
ghost use Rattle.automata.specs.Automata.{Accepts};
ghost use Rattle.rulebook.specs.Refusals.{is_settled};
ghost use Rattle.rulebook.specs.Model.{machine, asking, copying};
ghost use Rattle.rulebook.specs.Reducing.{Copied};
ghost use Rattle.rulebook.specs.View.{view, kept};

use super::*;
use labels::LabelAlgebra;

impl<'t, P> Book<'t, P> {
    // Whether the pair `p`, `q` is kept: declines with 6, 2.
    pub fn ask(&self, p: u16, q: u16) -> Result<bool, Refusal>
        ensures says { result ≡ asking (view self.now) (kept self.now) p q }
    {
        self.inner.condition.judge(Act::Reads)?;
        if !self.has_state(p) || !self.has_state(q) {
            return Err(Refusal::NoSuchState);
        }
        Ok(self.inner.rows.keeps(usize::from(p), usize::from(q)))
    }

    // Copies the kept pairs into the first four words a state: declines with 6, 3. Later words stay.
    pub fn copy_rows(&self, words: &mut [u64]) -> Result<(), Refusal>
        ensures says { result ≡ copying (view self.now) (length words.old) }
        ensures copies { MatchResult result (λ _. Copied (length (view self.now).marks) (kept self.now) words.old words.new) (λ _. words.new ≡ words.old) }
    {
        self.inner.condition.judge(Act::Reads)?;
        let used = 4 * self.inner.states;
        if words.len() < used {
            return Err(Refusal::TooSmall);
        }
        bits::put_words(words, 0, &self.inner.rows.words[..used]);
        Ok(())
    }

    // Whether the book is open.
    pub fn is_open(&self) -> bool
        ensures { result ≡ not (is_settled (view self.now).condition) }
    {
        matches!(self.inner.condition, Condition::Open)
    }

    // The number that it was given.
    pub fn number(&self) -> u32
        ensures { result ≡ (view self.now).number }
    {
        self.inner.number
    }

    // The marks of its states.
    pub fn marks(&self) -> &[Mark]
        ensures { result.now ≡ (view self.now).marks }
    {
        &self.inner.marks[..self.inner.states]
    }

    // Its arrows, from the first place on.
    pub fn arrows(&self) -> &[Arrow<P>]
        ensures { result.now ≡ (view self.now).arrows }
    {
        let slots = &*self.slots;
        &slots[..self.inner.arrows]
    }
}

impl<'t, P: Copy> Book<'t, P> {
    // Whether the word is accepted, on open books too.
    pub fn test_word<L: LabelAlgebra<Predicate = P>>(&self, labels: &L, word: &[L::Value]) -> bool
        ensures { Decides result (Accepts (machine (L.LabelAlgebra.holds labels.now) (view self.now)) word.now) }
    {
        engine::accepts(labels, self.arrows(), self.marks(), word)
    }
}
