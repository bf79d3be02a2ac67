// What a cut list says of a code point.

ghost use Rattle.std.specs.Prelude.{◌≡◌, ◌-◌, slice_index, length, if◌then◌else◌, Some, None, nat_le};
ghost use Rattle.labels.specs.Segments.{segment, first_of_segment};
ghost use Rattle.labels.specs.CutLists.{cuts_of};

use super::Cuts;

impl Cuts {
    pub fn len(&self) -> usize
        ensures { result ≡ length (cuts_of self.now) }
    {
        self.len
    }

    // How many cuts are at or below `c`.
    #[tactic(auto, unfolding(crate::specs::Segments::segment))]
    pub fn segment(&self, c: u32) -> usize
        ensures { result ≡ segment (cuts_of self.now) c }
    {
        self.cuts().iter().filter(|cut| **cut <= c).count()
    }

    // The least code point of segment `s`, or nothing where there is no such segment.
    pub fn first_in(&self, s: usize) -> Option<u32>
        ensures { result ≡ (if nat_le s (length (cuts_of self.now)) then Some (first_of_segment (cuts_of self.now) s) else None) }
    {
        // Both arms are options of their own; `map_or` would only turn them round.
        match s.checked_sub(1) {
            Some(i) => self.cuts().get(i).copied(),
            None => Some(0),
        }
    }

    // The last cut, or 0 where there is none.
    pub(super) fn last(&self) -> u32
        ensures { result ≡ slice_index (cuts_of self.now) (length (cuts_of self.now) - 1) }
    {
        self.cuts().last().copied().unwrap_or(0)
    }

    fn cuts(&self) -> &[u32]
        ensures { result.now ≡ cuts_of self.now }
    {
        &self.list[..self.len]
    }
}
