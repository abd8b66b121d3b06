// An item put into a lent list, and what a writer has written by such steps.
#![tactic(auto)]

ghost use Rattle.std.specs.Prelude.{[], ◌∷◌, ◌+◌, ◌<◌, ◌≤◌, length};
ghost use Rattle.put.specs.Put.{Put};

// Writes an item at a place and answers the next place; so do the writers that stand on it, with what they write.
pub fn put<T: Copy>(out: &mut [T], at: usize, item: T) -> usize
    requires { at < length out.old }
    ensures { Put at (item ∷ []) out.old out.new result }
{
    out[at] = item;
    at + 1
}

// Words, from a place on.
pub fn put_words<T: Copy>(out: &mut [T], at: usize, words: &[T]) -> usize
    requires { at + length words.now ≤ length out.old }
    ensures { Put at words.now out.old out.new result }
{
    let end = at + words.len();
    out[at..end].copy_from_slice(words);
    end
}
