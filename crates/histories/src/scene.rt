// What a history is carried out on.

use rulebook::Book;

// The text that words are parts of, the words that rows are copied into, the book, and the target of reduce. Each reference
// has a lifetime of its own: of a call at a lifetime that two of them have in common no proof is made.
#[derive(Drop)]
pub struct Scene<'x, 'w, 'b, 'g, 't, 'u, P, V> {
    pub text: &'x [V],
    pub words: &'w mut [u64],
    pub book: &'b mut Book<'t, P>,
    pub target: &'g mut Book<'u, P>,
}
