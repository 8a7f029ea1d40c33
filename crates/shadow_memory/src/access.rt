ghost use Rattle.std.specs.Prelude.{◌≡◌, ℕ, ◌<◌, IsTrue, None, List, ◌∷◌};
ghost use Rattle.addr_slice.specs.Claims.{is_claimed};
ghost use Rattle.shadow_memory.specs.Notes.{Note, later};
ghost use Rattle.shadow_memory.specs.Accesses.{last_access, last_conflict};

use crate::last::Last;
use addr_slice::Claims;

/// Of a word and a worker: the last iteration that claims the word for reading, and the last that claims it for writing.
#[derive(Clone, Copy)]
pub struct LastAccess {
    pub read: Last,
    pub write: Last,
}

impl LastAccess {
    pub fn none() -> LastAccess
        ensures { result ≡ record { read = None; write = None } }
    {
        LastAccess {
            read: Last::none(),
            write: Last::none(),
        }
    }

    /// With one iteration more, which has these claims.
    pub fn and(self, claims: &Claims, word: u32, number: u64) -> LastAccess
        requires { number < u64.MAX }
        ensures { (notes : List Note) (worker : ℕ) → self ≡ last_access notes worker word
            → result ≡ last_access (record { worker = worker; number = number; claims = claims.now } ∷ notes) worker word }
    {
        LastAccess {
            read: if claims.has(word, false) {
                self.read.and(number)
            } else {
                self.read
            },
            write: if claims.has(word, true) {
                self.write.and(number)
            } else {
                self.write
            },
        }
    }

    /// The last iteration that conflicts at the word with an iteration of these claims, which claims it.
    pub fn conflict(self, claims: &Claims, word: u32) -> Option<u64>
        requires { IsTrue (is_claimed claims.now word) }
        ensures { (notes : List Note) (worker : ℕ) → self ≡ last_access notes worker word
            → result ≡ last_conflict notes claims.now worker word }
    {
        let write = self.write.number();
        if claims.has(word, true) {
            later(write, self.read.number())
        } else {
            write
        }
    }
}

/// The greater of two, where there are two.
pub fn later(first: Option<u64>, second: Option<u64>) -> Option<u64>
    ensures { result ≡ later first second }
{
    match first {
        None => second,
        Some(first) => match second {
            None => Some(first),
            Some(second) => Some(first.max(second)),
        },
    }
}
