// The cut list, whose order is an invariant of the type.

ghost use Rattle.std.specs.Prelude.{◌≡◌, ℕ, ◌+◌, ◌<◌, ◌≤◌, slice_index};

mod asking;
mod building;

// At most 63 cuts, each of which begins a new segment of the code points. They rise strictly and stay within 1 to
// 1,114,111, so that finding a segment asks nothing of its caller; past them the array is clear, so that equal lists are
// equal values. An array and a length, since nothing here allocates and a cut list is copied with its algebra; and no
// `impl Model`, since the laws of the code points rest on these facts, which a view forgets.
#[derive(Clone, Copy, PartialEq, Eq, Debug)]
pub struct Cuts {
    list: [u32; 63],
    len: usize,
    ghost few: { len ≤ 63 },
    ghost low: { (i : ℕ) → i < len → 0 < slice_index list i },
    ghost high: { (i : ℕ) → i < len → slice_index list i ≤ 1114111 },
    ghost rises: { (i : ℕ) → i + 1 < len → slice_index list i < slice_index list (i + 1) },
    ghost clear: { (i : ℕ) → len ≤ i → slice_index list i ≡ 0 },
}

// A list that cannot go on with a number: it is full, or the number is not above its last cut or past the last code
// point.
#[derive(Clone, Copy, PartialEq, Eq, Debug)]
pub struct BadCut;
