// Rows of 256 bits: four words to a row, so that a relation on 256 states is 256 rows.

ghost use Rattle.std.specs.Prelude.{◌≡◌, ℕ, ◌+◌, ◌*◌, ◌<◌, ◌≤◌, true, false, ◌⊎◌, length, Decides, ◌≢◌, slice_index, slice_set};
ghost use Rattle.bits.specs.Bit.{bit};
ghost use Rattle.bits.specs.Matrix.{pair, Changed};

// As many words as make whole rows; the pair p, q is bit q mod 64 of word 4p + q div 64.
#[derive(Clone, Copy)]
pub struct Rows<const WORDS: usize> {
    pub words: [u64; WORDS],
    pub ghost whole: { length words ≡ WORDS },
}

impl<const WORDS: usize> Rows<WORDS> {
    // Rows that keep no pair.
    pub fn empty() -> Rows<WORDS>
        ensures { (p q : ℕ) → pair result.words p q ≡ false }
    {
        Rows { words: [0; WORDS] }
    }

    // Whether the pair `p`, `q` is kept.
    pub fn keeps(&self, p: usize, q: usize) -> bool
        requires row { 4 * p + 3 < WORDS }
        requires column { q < 256 }
        ensures { result ≡ pair self.now.words p q }
    {
        is_kept(&self.words, p, q)
    }

    // Adds the pair `p`, `q`, or takes it out.
    pub fn set(&mut self, p: usize, q: usize, kept: bool)
        requires row { 4 * p + 3 < WORDS }
        requires column { q < 256 }
        ensures { Changed kept self.old.words self.new.words p q }
    {
        set(&mut self.words, p, q, kept);
    }

    // Makes row `p` the one of `row`.
    pub fn put_row(&mut self, p: usize, row: &Rows<4>)
        requires { 4 * p + 3 < WORDS }
        ensures here { (q : ℕ) → pair self.new.words p q ≡ pair row.now.words 0 q }
        ensures others { (i q : ℕ) → i ≢ p → pair self.new.words i q ≡ pair self.old.words i q }
    {
        put_words(&mut self.words, 4 * p, &row.words);
    }

    // Whether row `p` and the one of `row` have a number in common.
    pub fn meets(&self, p: usize, row: &Rows<4>) -> bool
        requires { 4 * p + 3 < WORDS }
        ensures { Decides result ((q : ℕ) × (pair self.now.words p q ≡ true) × (pair row.now.words 0 q ≡ true)) }
    {
        let words = &self.words[..];
        let mut pairs = words[4 * p..4 * p + 4].iter().zip(&row.words);
        pairs.any(|(x, y)| overlap(*x, *y))
    }
}

// Whether two words have a bit in common.
fn overlap(x: u64, y: u64) -> bool
    ensures { Decides result ((k : ℕ) × (bit x k ≡ true) × (bit y k ≡ true)) }
{
    x & y != 0
}

// The same on a slice of any length: whether the pair `p`, `q` is kept.
pub fn is_kept(rows: &[u64], p: usize, q: usize) -> bool
    requires row { 4 * p + 3 < length rows.now }
    requires column { q < 256 }
    ensures { result ≡ pair rows.now p q }
{
    crate::is_set(rows[4 * p + q / 64], q % 64)
}

// Adds the pair `p`, `q`, or takes it out.
pub fn set(rows: &mut [u64], p: usize, q: usize, kept: bool)
    requires row { 4 * p + 3 < length rows.old }
    requires column { q < 256 }
    ensures { Changed kept rows.old rows.new p q }
{
    let i = 4 * p + q / 64;
    let word = rows[i];
    let bit = 1 << (q % 64);
    put_word(rows, i, if kept { word | bit } else { word & !bit });
}

// Writes words from the place `at` on, one after the other.
pub fn put_words(rows: &mut [u64], at: usize, words: &[u64])
    requires { at + length words.now ≤ length rows.old }
    ensures here { (i : ℕ) → i < length words.now → slice_index rows.new (at + i) ≡ slice_index words.now i }
    ensures others { (i : ℕ) → (i < at) ⊎ (at + length words.now ≤ i) → slice_index rows.new i ≡ slice_index rows.old i }
{
    for (i, word) in words.iter().enumerate() {
        put_word(rows, at + i, *word);
    }
}

// Writes a word of a row: the only place where rows are written.
pub fn put_word(rows: &mut [u64], i: usize, word: u64)
    requires { i < length rows.old }
    ensures { rows.new ≡ slice_set rows.old i word }
{
    rows[i] = word;
}
