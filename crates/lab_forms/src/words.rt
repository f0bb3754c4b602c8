//! Lists of things that have a word each: a name is its own word, and the word of a field is its
//! key.
ghost use Rattle.std.specs.Prelude.{◌≡◌, ℕ, List, map, bytes_eq};
ghost use Rattle.std.specs.List.{list_any};
ghost use Rattle.lab_forms.specs.Words.{has_text_twice};

/// A thing that has a word.
pub trait Worded {
    ghost text_of: { Self → List ℕ };

    /// The word of the thing.
    fn word(&self) -> &str
        ensures { result.now ≡ text_of self.now };
}

/// Whether one of the things has the text as its word.
pub fn has_word<T: Worded>(things: &[T], text: &str) -> bool
    ensures { result ≡ list_any (λ thing. bytes_eq (T.text_of thing) text.now) things.now }
{
    things.iter().any(|thing| thing.word() == text)
}

/// Whether two of the things have the same word.
pub fn has_word_twice<T: Worded>(things: &[T]) -> bool
    ensures { result ≡ has_text_twice (map T.text_of things.now) }
{
    for (place, thing) in things.iter().enumerate() {
        if has_word(&things[place + 1..], thing.word()) {
            return true;
        }
    }
    false
}
