// The words of a line.

ghost use Rattle.std.specs.Prelude.{◌≡◌, ◌↔◌, ◌∷◌, IsTrue, [], MatchOption, MatchResult};
ghost use Rattle.mscp_packet.specs.Steps.{Gives};
ghost use Rattle.mscp_reader.specs.Lexical as lexical;
ghost use Rattle.mscp_reader.specs.Requests as requests;

use crate::fault::Cause;
use crate::pieces::index_of;

/// The words of a line that are left.
#[derive(Clone, Copy)]
pub struct Words<'a> {
    pub rest: &'a [u8],
}

impl<'a> Words<'a> {
    /// The words of a line.
    pub fn new(line: &'a [u8]) -> Self
        ensures { result.rest.now ≡ line.now }
    {
        Words { rest: line }
    }

    /// Whether no word is left.
    pub fn is_empty(&self) -> bool
        ensures { IsTrue result ↔ (lexical.words self.now.rest.now ≡ []) }
    {
        let mut rest = *self;
        rest.next_word().is_none()
    }

    /// Cuts off the next word: up to a space or the end.
    #[tactic(auto, using(crate::proofs::Cuts::split_first), unfolding(crate::specs::Lexical::words))]
    pub fn next_word(&mut self) -> Option<&'a [u8]>
        ensures { MatchOption result (lexical.words self.old.rest.now ≡ []) (λ word. lexical.words self.old.rest.now
            ≡ word.now ∷ lexical.words self.new.rest.now) }
    {
        while let [b' ', rest @ ..] = self.rest {
            self.rest = rest;
        }
        if self.rest.is_empty() {
            return None;
        }
        let end = index_of(self.rest, b' ').unwrap_or(self.rest.len());
        let (word, rest) = self.rest.split_at(end);
        self.rest = rest;
        Some(word)
    }

    /// Nothing, where no word is left.
    ///
    /// # Errors
    ///
    /// `Count` if one is left.
    pub fn none(mut self) -> Result<(), Cause>
        ensures { result ≡ requests.none (lexical.words self.entry.rest.now) }
    {
        match self.next_word() {
            Some(_) => Err(Cause::Count),
            None => Ok(()),
        }
    }

    /// The one word that is left.
    ///
    /// # Errors
    ///
    /// `Count` if none or more are left.
    pub fn one(mut self) -> Result<&'a [u8], Cause>
        ensures { Gives (λ f. f.now) result (requests.one (lexical.words self.entry.rest.now)) }
    {
        let field = self.next_field()?;
        self.none()?;
        Ok(field)
    }

    /// The two words that are left.
    ///
    /// # Errors
    ///
    /// `Count` if fewer or more are left.
    pub fn two(mut self) -> Result<(&'a [u8], &'a [u8]), Cause>
        ensures { Gives (λ f. (f.0.now, f.1.now)) result (requests.two (lexical.words self.entry.rest.now)) }
    {
        let first = self.next_field()?;
        let second = self.next_field()?;
        self.none()?;
        Ok((first, second))
    }

    /// The four words that are left.
    ///
    /// # Errors
    ///
    /// `Count` if fewer or more are left.
    #[tactic(auto, using(crate::proofs::Fields::four_by_two))]
    pub fn four(mut self) -> Result<(&'a [u8], &'a [u8], &'a [u8], &'a [u8]), Cause>
        ensures { Gives (λ f. (f.0.now, f.1.now, f.2.now, f.3.now)) result (requests.four (lexical.words
            self.entry.rest.now)) }
    {
        let first = self.next_field()?;
        let second = self.next_field()?;
        let (third, fourth) = self.two()?;
        Ok((first, second, third, fourth))
    }

    /// The five words that are left.
    ///
    /// # Errors
    ///
    /// `Count` if fewer or more are left.
    #[tactic(auto, using(crate::proofs::Fields::five_by_four))]
    pub fn five(mut self) -> Result<(&'a [u8], &'a [u8], &'a [u8], &'a [u8], &'a [u8]), Cause>
        ensures { Gives (λ f. (f.0.now, f.1.now, f.2.now, f.3.now, f.4.now)) result (requests.five (lexical.words
            self.entry.rest.now)) }
    {
        let first = self.next_field()?;
        let (second, third, fourth, fifth) = self.four()?;
        Ok((first, second, third, fourth, fifth))
    }

    /// Cuts off the next word, which is needed.
    ///
    /// # Errors
    ///
    /// `Count` if none is left.
    pub fn next_field(&mut self) -> Result<&'a [u8], Cause>
        ensures { MatchResult result (λ word. lexical.words self.old.rest.now ≡ word.now ∷ lexical.words
            self.new.rest.now) (λ cause. (cause ≡ Cause.Count) × (lexical.words self.old.rest.now ≡ [])) }
    {
        match self.next_word() {
            Some(word) => Ok(word),
            None => Err(Cause::Count),
        }
    }
}
