ghost use Rattle.std.specs.Prelude.{◌≡◌, ℕ, ◌<◌, ◌≤◌, ◌+◌, ◌*◌, IsTrue, IfOk, None, List, [], ◌∷◌, length, slice_index_or};
ghost use Rattle.addr_slice.specs.Claims.{is_claimed, words_of};
ghost use Rattle.shadow_memory.specs.Notes.{Note, later, need};
ghost use Rattle.shadow_memory.specs.Accesses.{last_access, last_conflict, access_at, IsNoted};

use crate::access::{LastAccess, later};
use addr_slice::Claims;
use nest_syntax::NoMemory;
use std::alloc::Global;
use std::marker::Model;

/// What was noted since it was made or cleared: iterations, each with its worker, its number and its claims. It takes 16
/// bytes for each word and worker.
#[derive(Drop)]
pub struct Shadow {
    words: u32,
    workers: u8,
    // That of a word and a worker is at `word * workers + worker`.
    last: Vec<LastAccess>,
}

impl Model for Shadow {
    ghost use Rattle.std.specs.Prelude.{◌≡◌, ◌≤◌, ◌*◌, length};
    ghost use Rattle.shadow_memory.specs.Accesses.{LastAccesses};

    ghost Value = { LastAccesses };

    ghost view = { λ s. record { words = s.words; workers = s.workers; list = s.last.items } };

    ghost invariant = { λ s. record { few : s.workers ≤ 8; places : length s.last.items ≡ s.words * s.workers } };
}

impl Shadow {
    /// A shadow with nothing noted, for this many words and workers. There are at most 8 workers.
    pub fn new(alloc: Global, words: u32, workers: u8) -> Result<Shadow, NoMemory>
        requires { workers ≤ 8 }
        ensures words { IfOk result (λ made. made.words ≡ words) }
        ensures workers { IfOk result (λ made. made.workers ≡ workers) }
        ensures noted { IfOk result (λ made. IsNoted made []) }
    {
        let places = words as usize * workers as usize;
        let last = vec![in alloc; LastAccess::none(); places]?;
        Ok(Shadow {
            words,
            workers,
            last,
        })
    }

    /// What an iteration of a worker with these claims has to wait for, by worker: the greatest number noted of another
    /// worker whose claims conflict with them. A place is None exactly where no such number was noted, and for the
    /// worker itself. Costs a walk over the claims, once for all workers.
    pub fn need(&self, claims: &Claims, worker: u8) -> [Option<u64>; 8]
        requires words { words_of claims.now ≤ self.now.words }
        requires worker { worker < self.now.workers }
        ensures { (notes : List Note) → IsNoted self.now notes → (other : ℕ) → slice_index_or result other None ≡ need notes claims.now worker other }
    {
        let mut needs = [None; 8];
        let mut from = 0;
        'words: while let Some(word) = claims.next_from(from) {
            self.raise(&mut needs, claims, word);
            from = word + 1;
        }
        // There are at most 8 workers.
        let _ = &self.workers;
        needs[worker as usize] = None;
        needs
    }

    /// Notes an iteration of a worker, by its number, which is below 2^64 - 1, and its claims. Costs a walk over the
    /// claims.
    pub fn note(&mut self, claims: &Claims, worker: u8, number: u64)
        requires words { words_of claims.now ≤ self.old.words }
        requires worker { worker < self.old.workers }
        requires number { number < u64.MAX }
        ensures words { self.new.words ≡ self.old.words }
        ensures workers { self.new.workers ≡ self.old.workers }
        ensures noted { (notes : List Note) → IsNoted self.old notes
            → IsNoted self.new (record { worker = worker; number = number; claims = claims.now } ∷ notes) }
    {
        let mut from = 0;
        'words: while let Some(word) = claims.next_from(from) {
            self.put(claims, word, worker, number);
            from = word + 1;
        }
    }

    /// Forgets all that was noted. Costs as much as it has room for, whatever was noted.
    pub fn clear(&mut self)
        ensures words { self.new.words ≡ self.old.words }
        ensures workers { self.new.workers ≡ self.old.workers }
        ensures noted { IsNoted self.new [] }
    {
        self.last.fill(LastAccess::none());
    }

    // Puts in what conflicts at a word that is claimed, where it is later.
    fn raise(&self, needs: &mut [Option<u64>; 8], claims: &Claims, word: u32)
        requires word { word < self.now.words }
        requires claimed { IsTrue (is_claimed claims.now word) }
        ensures { (notes : List Note) → IsNoted self.now notes → (other : ℕ)
            → slice_index_or needs.new other None ≡ later (slice_index_or needs.old other None) (last_conflict notes claims.now other word) }
    {
        for other in 0..self.workers {
            let conflict = self.last[self.place(word, other)].conflict(claims, word);
            needs[other as usize] = later(needs[other as usize], conflict);
        }
    }

    // Puts an iteration of a worker into its last access to a word.
    fn put(&mut self, claims: &Claims, word: u32, worker: u8, number: u64)
        requires word { word < self.old.words }
        requires worker { worker < self.old.workers }
        requires number { number < u64.MAX }
        ensures words { self.new.words ≡ self.old.words }
        ensures workers { self.new.workers ≡ self.old.workers }
        ensures here { (notes : List Note) → access_at self.old word worker ≡ last_access notes worker word
            → access_at self.new word worker ≡ last_access (record { worker = worker; number = number; claims = claims.now } ∷ notes) worker word }
        ensures others { (k other : ℕ) → other < self.old.workers → (k ≡ word → other ≡ worker → ⊥) → access_at self.new k other ≡ access_at self.old k other }
    {
        let place = self.place(word, worker);
        self.last[place] = self.last[place].and(claims, word, number);
    }

    fn place(&self, word: u32, worker: u8) -> usize
        requires word { word < self.now.words }
        requires worker { worker < self.now.workers }
        ensures place { result ≡ word * self.now.workers + worker }
        ensures within { result < length self.now.list }
    {
        word as usize * self.workers as usize + worker as usize
    }
}
