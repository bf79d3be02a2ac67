// The texts of style marks, code points and sums.

ghost use Rattle.std.specs.Prelude.{◌≡◌, ◌+◌, ◌%◌, ◌^◌, ◌++◌, length, drop};
ghost use Rattle.labels.specs.CutLists.{segment_count, real_bits};
ghost use Rattle.written.specs.Hex.{hexes, hex_read};
ghost use Rattle.written.specs.Texts.{reads_word, reads_both};
ghost use Rattle.labels.specs.declared.sum.Both.{Both};
ghost use Rattle.std.proofs.Common.{sym, ◌∙◌, ap, mod-eq_of_lt, pow_pos};
ghost use Rattle.std.proofs.lemmas.Nat.{mod_below};
ghost use Rattle.bits.proofs.Lows.{bit_cut};
ghost use Rattle.written.specs.Codecs.{fails_from_back, word_back, points_back, points_low, word_exact, plain_hexes, either_same, both_back, both_exact};
ghost use Rattle.written.specs.Hexes.{length-hexes};
ghost use Rattle.std.proofs.ByRecursion.{All-append};

use crate::hex::{read_word, write_word};
use crate::{Reading, WrittenAlgebra};
use labels::{Both, CodePoints, LabelAlgebra, StyleMarks, Sum};

impl WrittenAlgebra for StyleMarks {
    ghost text = { λ _ p. hexes 16 p };

    ghost reads = { λ _ bytes. reads_word (2 ^ 64) (hex_read 16 0 bytes) };

    ghost back = { λ a p rest.
        (p % 2 ^ 64, word_back (2 ^ 64) p rest (mod_below p (2 ^ 64) (pow_pos 64)), λ v. bit_cut p v) };

    ghost exact = { λ a bytes got e.
        let w = word_exact (2 ^ 64) bytes got e in
        (w.len ∙ sym (length-hexes 16 got.predicate), w.front) };

    ghost fails = { λ a bytes e p rest is.
        fails_from_back (hexes 16) (λ bs. reads_word (2 ^ 64) (hex_read 16 0 bs)) bytes e p rest _
        (word_back (2 ^ 64) p rest (mod_below p (2 ^ 64) (pow_pos 64))) is };

    ghost plain = { λ a p. plain_hexes 16 p };

    // All three methods stand in both impls of words: a line or two each, over the same reader and writer.
    #[tactic(auto, using(crate::specs::Hexes::hex_lengths))]
    fn text_len(&self, _p: u64) -> usize {
        16
    }

    fn write(&self, p: u64, out: &mut [u8]) -> Option<usize> {
        write_word(p, out)
    }

    fn read(&self, bytes: &[u8]) -> Option<Reading<u64>> {
        read_word(bytes)
    }
}

// Bits past the last segment mean nothing: they are written as 0, and a text with one of them set is not read.
impl WrittenAlgebra for CodePoints {
    ghost text = { λ a p. hexes 16 (real_bits a.cuts p) };

    ghost reads = { λ a bytes. reads_word (2 ^ segment_count a.cuts) (hex_read 16 0 bytes) };

    ghost back = { λ a p rest. (real_bits a.cuts p, points_back a.cuts p rest, points_low a.cuts p) };

    ghost exact = { λ a bytes got e.
        let limit = 2 ^ segment_count a.cuts in
        let w = word_exact limit bytes got e in
        let low : real_bits a.cuts got.predicate ≡ got.predicate = mod-eq_of_lt w.small in
        (w.len ∙ sym (length-hexes 16 (real_bits a.cuts got.predicate)), w.front ∙ ap (λ n. hexes 16 n ++ drop got.len bytes) (sym low)) };

    ghost fails = { λ a bytes e p rest is.
        let limit = 2 ^ segment_count a.cuts in
        fails_from_back (λ q. hexes 16 (real_bits a.cuts q)) (λ bs. reads_word limit (hex_read 16 0 bs)) bytes e p rest _ (points_back a.cuts p rest) is };

    ghost plain = { λ a p. plain_hexes 16 (real_bits a.cuts p) };

    #[tactic(auto, using(crate::specs::Hexes::hex_lengths))]
    fn text_len(&self, _p: u64) -> usize {
        16
    }

    fn write(&self, p: u64, out: &mut [u8]) -> Option<usize> {
        write_word(self.real_bits(p), out)
    }

    fn read(&self, bytes: &[u8]) -> Option<Reading<u64>> {
        let got = read_word(bytes)?;
        (self.real_bits(got.predicate) == got.predicate).then_some(got)
    }
}

// The left text, then the right one.
impl<L: WrittenAlgebra, R: WrittenAlgebra> WrittenAlgebra for Sum<L, R> {
    ghost text = { λ s p. L.WrittenAlgebra.text s.left p.left ++ R.WrittenAlgebra.text s.right p.right };

    ghost reads = { λ s bytes. reads_both (L.WrittenAlgebra.reads s.left bytes) (R.WrittenAlgebra.reads s.right) bytes };

    ghost back = { λ a p rest.
        let text_r = R.WrittenAlgebra.text a.right p.right in
        let l = L.WrittenAlgebra.back a.left p.left (text_r ++ rest) in
        let r = R.WrittenAlgebra.back a.right p.right rest in (
          record { left = l.0; right = r.0 },
          both_back (L.WrittenAlgebra.reads a.left) (R.WrittenAlgebra.reads a.right) (L.WrittenAlgebra.text a.left p.left) text_r rest l.0 r.0 l.1 r.1,
          either_same _ _ _ _ l.2 r.2,
        ) };

    ghost exact = { λ a bytes got e.
        both_exact (L.WrittenAlgebra.reads a.left) (R.WrittenAlgebra.reads a.right) (L.WrittenAlgebra.text a.left) (R.WrittenAlgebra.text a.right) bytes got
        (L.WrittenAlgebra.exact a.left bytes) (R.WrittenAlgebra.exact a.right) e };

    ghost fails = { λ a bytes e p rest is.
        let text_r = R.WrittenAlgebra.text a.right p.right in
        let l = L.WrittenAlgebra.back a.left p.left (text_r ++ rest) in
        let r = R.WrittenAlgebra.back a.right p.right rest in
        fails_from_back (λ (q : Both L.Predicate R.Predicate). L.WrittenAlgebra.text a.left q.left ++ R.WrittenAlgebra.text a.right q.right)
        (λ bs. reads_both (L.WrittenAlgebra.reads a.left bs) (R.WrittenAlgebra.reads a.right) bs) bytes e p rest _
        (both_back (L.WrittenAlgebra.reads a.left) (R.WrittenAlgebra.reads a.right) (L.WrittenAlgebra.text a.left p.left) text_r rest l.0 r.0 l.1 r.1) is };

    ghost plain = { λ a p. All-append _ (L.WrittenAlgebra.text a.left p.left) (R.WrittenAlgebra.text a.right p.right) (L.WrittenAlgebra.plain a.left p.left) (R.WrittenAlgebra.plain a.right p.right) };

    #[tactic(auto, using(crate::specs::Codecs::length_both))]
    fn text_len(&self, p: Both<L::Predicate, R::Predicate>) -> usize {
        self.left
            .text_len(p.left)
            .saturating_add(self.right.text_len(p.right))
    }

    #[tactic(auto, using(crate::specs::Codecs::room_both, std::proofs::lemmas::List::take_rest))]
    fn write(&self, p: Both<L::Predicate, R::Predicate>, out: &mut [u8]) -> Option<usize> {
        // Tested first: the left text may not be written where the right one then has no room.
        if out.len() < self.text_len(p) {
            return None;
        }
        let n = self.left.write(p.left, out)?;
        let m = self.right.write(p.right, &mut out[n..])?;
        Some(n + m)
    }

    #[tactic(auto, using(crate::specs::Codecs::front_le, crate::specs::Codecs::behind_le, crate::specs::Codecs::both_reads))]
    fn read(&self, bytes: &[u8]) -> Option<Reading<Both<L::Predicate, R::Predicate>>> {
        let l = self.left.read(bytes)?;
        let r = self.right.read(&bytes[l.len..])?;
        let predicate = Both {
            left: l.predicate,
            right: r.predicate,
        };
        Some(Reading {
            predicate,
            len: l.len + r.len,
        })
    }
}
