//! Random words.

ghost use Rattle.std.specs.Prelude.{◌≡◌, ◌≤◌, ℕ, List, Option, Some, length};
ghost use Rattle.outside_traits.specs.Given.{GivesWord};

/// A giver of random words, by those that it is still to give.
pub trait Words {
    /// The words ahead, where the object tells them.
    ghost ahead: { Self → Option (List ℕ) };

    /// The next word. It cannot fail: after the words ahead come zeros.
    fn next(&mut self) -> u64
        ensures { GivesWord (ahead self.old) result (ahead self.new) };
}

/// A giver of a list of words, and then of zeros.
#[derive(Debug, Drop)]
pub struct ListWords {
    words: Vec<u64>,
    at: usize,
    ghost within: { at ≤ length words.items },
}

impl ListWords {
    ghost use Rattle.outside_traits.specs.Lists.{words_ahead};

    /// A giver of these words.
    pub fn new(words: Vec<u64>) -> ListWords
        ensures { words_ahead result ≡ words.items }
    {
        ListWords { words, at: 0 }
    }
}

impl Words for ListWords {
    ghost use Rattle.outside_traits.specs.Lists.{words_ahead};

    ghost ahead = { λ w. Some (words_ahead w) };

    fn next(&mut self) -> u64 {
        if self.at < self.words.len() {
            let word = self.words[self.at];
            self.at += 1;
            word
        } else {
            0
        }
    }
}
