// What a path offers.
ghost use Rattle.std.specs.Prelude.{◌≡◌, ◌<◌, true, [], ◌∷◌, ◌++◌, length, MatchResult};
ghost use Rattle.labels.specs.Paths.{literals, path_holds, path_guard, all_known, room};

use crate::kinds::Guard;
use crate::literals::{Literal, Sign};
use crate::paths::{MOST_LITERALS, Path};
use faults::{Fault, Refusal, refuse_unless};

impl Path {
    // The path with no literal, which holds at every choice.
    pub fn new() -> Path
        ensures { literals result ≡ [] }
    {
        let unused = Literal {
            sign: Sign::Plus,
            label: 0,
        };
        Path {
            literals: [unused; MOST_LITERALS],
            len: 0,
        }
    }

    // The literals in order.
    pub fn as_slice(&self) -> &[Literal]
        ensures { result.now ≡ literals self.now }
    {
        &self.literals[..self.len]
    }

    // Tells before a literal is added whether there is room for it.
    pub fn check_room(&self) -> Result<(), Fault>
        ensures { result ≡ room (literals self.now) }
    {
        let has_room = self.as_slice().len() < MOST_LITERALS;
        refuse_unless(has_room, Refusal::CountOutOfLimits, 0)
    }

    // Adds a literal at the end, or leaves the path as it was where there is no room.
    pub fn push(&mut self, literal: Literal) -> Result<(), Fault>
        ensures value { result ≡ room (literals self.old) }
        ensures after { MatchResult result (λ _. literals self.new ≡ literals self.old ++ literal ∷ []) (λ _. self.new ≡ self.old) }
    {
        self.check_room()?;
        self.append(literal);
        Ok(())
    }

    // Adds a literal at the end, where there is room.
    fn append(&mut self, literal: Literal)
        requires { length (literals self.old) < 8 }
        ensures { literals self.new ≡ literals self.old ++ literal ∷ [] }
    {
        self.literals[self.len] = literal;
        self.len += 1;
    }

    // The meet of the literals' guards. Where each label is known, it admits the choices at which the
    // path holds.
    pub fn guard<G: Guard>(&self) -> G
        ensures admitted { G.admitted result ≡ path_guard G.known (literals self.now) }
        ensures holds { all_known G.known (literals self.now) ≡ true → G.admitted result ≡ path_holds (literals self.now) }
    {
        self.as_slice()
            .iter()
            .fold(G::everything(), |guard, literal| guard.narrowed(*literal))
    }
}
