//! The words of a line.
ghost use Rattle.std.specs.Prelude.{◌≡◌, ◌≢◌, ◌∷◌, [], length, MatchOption};
ghost use Rattle.wenc.specs.Prelude.{parted, words_left};

/// The remaining words of a line, separated by one space.
#[derive(Clone, Copy)]
pub struct Words<'a> {
    /// The line from the next word on, if there is one.
    rest: Option<&'a str>,
}

impl<'a> Words<'a> {
    /// Returns all words of a line.
    pub fn of(line: &'a str) -> Words<'a>
        ensures { words_left result ≡ parted 32 line.now }
    {
        Words { rest: Some(line) }
    }

    /// Returns the next word, if there is one.
    #[tactic(auto, using(crate::proofs::Parted::parted_whole, crate::proofs::Parted::parted_first))]
    pub fn next(&mut self) -> Option<&'a str>
        ensures { MatchOption result
            (words_left self.old ≡ [])
            (λ word. words_left self.old ≡ word.now ∷ words_left self.new) }
    {
        let line = self.rest?;
        match line.split_once(' ') {
            Some((word, rest)) => {
                self.rest = Some(rest);
                Some(word)
            }
            None => {
                self.rest = None;
                Some(line)
            }
        }
    }

    /// Returns the remaining words, if there are three.
    pub fn three(self) -> Option<(&'a str, &'a str, &'a str)>
        ensures { MatchOption result
            (length (words_left self.entry) ≢ 3)
            (λ three. words_left self.entry ≡ three.0.now ∷ three.1.now ∷ three.2.now ∷ []) }
    {
        let mut words = self;
        let three = (words.next()?, words.next()?, words.next()?);
        match words.next() {
            None => Some(three),
            Some(_) => None,
        }
    }
}
