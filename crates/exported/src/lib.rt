// The engine for programs in other languages: books over style marks, as numbers in slices.
//
// What the engine asks of its callers is tested here first, so neither call asks anything: where the numbers make no book,
// or the buffers of a target are too small, it says so and alters nothing. The tables that the engine works on are local:
// settle has one, reduce two, of 192 KiB each.
#![tactic(auto)]

ghost use Rattle.std.specs.Prelude.{◌≡◌, ℕ, ◌-◌, ◌^◌, ◌<◌, ◌≤◌, true, false, map, length, Decides, slice_index_or};
ghost use Rattle.std.specs.List.{AllByRecursion};
ghost use Rattle.bits.specs.Matrix.{pair};
ghost use Rattle.automata.specs.Automata.{Within};
ghost use Rattle.reduction.specs.Filled.{Bounded, Crowded};
ghost use Rattle.exported.specs.Foreign.{mark_of, code_of, arrow_of, rule_of, book_of, Sound, Settled, Roomy, Made, Past};

use automata::{Arrow, Mark};
use engine::settle;
use labels::StyleMarks;
use reduction::{Counts, reduce};

// An arrow as it crosses from C, which has no generic structs; codes, rows and a size cross as numbers too. A label is the set of its
// style marks.
#[repr(C)]
#[derive(Clone, Copy)]
pub struct Rule {
    pub source: u16,
    pub target: u16,
    pub label: u64,
}

// How many states and arrows a reduced book has.
#[repr(C)]
#[derive(Clone, Copy)]
pub struct Size {
    pub states: u64,
    pub arrows: u64,
}

impl From<Rule> for Arrow<u64> {
    ghost from_gives = { λ x r. r ≡ arrow_of x };

    fn from(rule: Rule) -> Arrow<u64> {
        let Rule {
            source,
            target,
            label,
        } = rule;
        Arrow {
            source,
            label,
            target,
        }
    }
}

// One conversion for each direction; C wants the fields in the order of `Rule`.
impl From<Arrow<u64>> for Rule {
    ghost from_gives = { λ x r. r ≡ rule_of x };

    fn from(arrow: Arrow<u64>) -> Rule {
        let Arrow {
            source,
            label,
            target,
        } = arrow;
        Rule {
            source,
            target,
            label,
        }
    }
}

impl From<Counts> for Size {
    ghost from_gives = { λ x r. r ≡ record { states = x.states; arrows = x.arrows } };

    fn from(counts: Counts) -> Size {
        Size {
            states: counts.states as u64,
            arrows: counts.arrows as u64,
        }
    }
}

const BLANK: Arrow<u64> = Arrow {
    source: 0,
    label: 0,
    target: 0,
};

// Marks cross to C as codes: bit 0 for an initial state, bit 1 for an accepting one. No `From`, since neither type is this crate's.
fn mark_of(code: u8) -> Mark
    ensures { result ≡ mark_of code }
{
    let code = u64::from(code);
    Mark::new(bits::is_set(code, 0), bits::is_set(code, 1))
}

fn code_of(mark: Mark) -> u8
    ensures { result ≡ code_of mark }
{
    match mark {
        Mark::Neither => 0,
        Mark::Initial => 1,
        Mark::Accepting => 2,
        Mark::Both => 3,
    }
}

// Writes what is made of each element, from the first place on. By the place: after
// a `zip` with `iter_mut` no proof knows the elements.
fn write<X: Copy, Y: Copy, F: Fn(X) -> Y>(from: &[X], into: &mut [Y], make: F)
    requires room { length from.now ≤ length into.old }
    requires callable { F.IsAlwaysCallable make }
    ensures made { (k : ℕ) (d : X.row.Denot) (e : Y.row.Denot) → k < length from.now → F.post make (slice_index_or from.now k d) (slice_index_or into.new k e) }
    ensures past { Past (length from.now) into.old into.new }
{
    for (i, x) in from.iter().enumerate() {
        into[i] = make(*x);
    }
}

// Whether both ends of each rule are below `states`.
fn is_within(rules: &[Rule], states: usize) -> bool
    ensures { Decides result (AllByRecursion (λ x. Within states (arrow_of x)) rules.now) }
{
    rules.iter().all(|rule| {
        usize::from(rule.source) < states && usize::from(rule.target) < states
    })
}

// Whether the numbers make a book.
fn is_book(codes: &[u8], rules: &[Rule]) -> bool
    ensures bounded { Decides result (Bounded (map mark_of codes.now) (map arrow_of rules.now)) }
    ensures fits { result ≡ true → (length codes.now ≤ 256) × (length rules.now ≤ 8192) }
{
    codes.len() <= 256 && rules.len() <= 8192 && is_within(rules, codes.len())
}

// Whether a target has room for the codes and the rows of any book.
fn is_roomy(codes: &[u8], rows: &[u64]) -> bool
    ensures { Decides result (Roomy codes.now rows.now) }
{
    codes.len() >= 256 && rows.len() == 1024
}

// Settles a book: `rows` then has exactly the kept pairs, and the answer is their number. Where the numbers make no book it
// answers the largest number, which is no count of pairs, and alters nothing: C has no `Option`.
#[unsafe(no_mangle)]
pub extern "C" fn worsklif_settle(codes: &[u8], rules: &[Rule], rows: &mut [u64]) -> u64
    ensures settled { Sound codes.now rules.now rows.old → Settled codes.now rules.now rows.new result }
    ensures refused { (Sound codes.now rules.now rows.old → ⊥) → (result ≡ 2 ^ 64 - 1) × (rows.new ≡ rows.old) }
{
    if rows.len() != 1024 || !is_book(codes, rules) {
        return u64::MAX;
    }
    // Here and in reduce, not in a function: it would hand out the tables by value, and so have them twice on the stack.
    let mut arrows = [BLANK; 8192];
    let mut marks = [Mark::Neither; 256];
    write(codes, &mut marks, mark_of);
    write(rules, &mut arrows, Arrow::from);
    let number = settle(
        &StyleMarks,
        &arrows[..rules.len()],
        &marks[..codes.len()],
        rows,
    );
    // `as`, since there is no `From<usize>` for `u64`.
    number as u64
}

// Reduces a book by the pairs in `rows`: the first codes and rules of the target, its rows and its size are then those of the
// reduced book, and what stands past them is as it was. Where the numbers make no book, or the target has no room for 256 codes,
// for 1,024 words or for the arrows, it answers false and alters nothing. The size goes out by a reference, since C has no `Option`.
#[unsafe(no_mangle)]
pub extern "C" fn worsklif_reduce(
    codes: &[u8],
    rules: &[Rule],
    rows: &[u64],
    into_codes: &mut [u8],
    into_rules: &mut [Rule],
    into_rows: &mut [u64],
    size: &mut Size,
) -> bool
    ensures asked { result ≡ true → Sound codes.now rules.now rows.now × Roomy into_codes.old into_rows.old }
    ensures made { result ≡ true → Made (book_of codes.now rules.now) (pair rows.now) into_codes.new into_rules.new into_rows.new size.new.states size.new.arrows }
    ensures past { result ≡ true → Past size.new.states into_codes.old into_codes.new × Past size.new.arrows into_rules.old into_rules.new }
    ensures refused { result ≡ false → Sound codes.now rules.now rows.now → Roomy into_codes.old into_rows.old → Crowded (book_of codes.now rules.now) (pair rows.now) (length into_rules.old) }
    ensures same { result ≡ false → (into_codes.new ≡ into_codes.old) × (into_rules.new ≡ into_rules.old) × (into_rows.new ≡ into_rows.old) × (size.new ≡ size.old) }
{
    if rows.len() != 1024 || !is_book(codes, rules) || !is_roomy(into_codes, into_rows) {
        return false;
    }
    let mut arrows = [BLANK; 8192];
    let mut marks = [Mark::Neither; 256];
    write(codes, &mut marks, mark_of);
    write(rules, &mut arrows, Arrow::from);
    let mut new_arrows = [BLANK; 8192];
    let mut new_marks = [Mark::Neither; 256];
    let mut new_rows = [0; 1024];
    let Some(counts) = reduce(
        &StyleMarks,
        &arrows[..rules.len()],
        &marks[..codes.len()],
        rows,
        &mut new_arrows,
        &mut new_marks,
        &mut new_rows,
    ) else {
        return false;
    };
    let Counts {
        states,
        arrows: used,
    } = counts;
    if into_rules.len() < used {
        return false;
    }
    write(&new_marks[..states], into_codes, code_of);
    write(&new_arrows[..used], into_rules, Rule::from);
    bits::put_words(into_rows, 0, &new_rows);
    *size = Size::from(counts);
    true
}
