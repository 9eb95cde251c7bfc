// An account of the answers given.
#![tactic(auto)]

ghost use Rattle.std.specs.Prelude.{◌≡◌, ℕ, ◌+◌, ◌<◌, List, [], ◌∷◌, ◌++◌, is_ok, IfOk, if◌then◌else◌, vec_len, string_bytes, nat_lt};
ghost use Rattle.account.specs.Accounts.{empty, noted, count_lines};
ghost use Rattle.account.specs.Repeats.{ListsEachRepeatedHashOnce, repeats};

use reply::Reply;
use std::alloc::{AllocError, Global};
use std::marker::Model;

#[derive(Drop)]
pub struct Account {
    // Each hash that a text read as, in the order of the texts.
    hashes: Vec<[u8; 20]>,
    malformed: u64,
    written: u64,
    judged: u64,
    mistakes: u64,
}

impl Model for Account {
    ghost use Rattle.std.specs.Prelude.{vec_items};
    ghost use Rattle.account.specs.Accounts.{Tally};

    ghost Value = { Tally };

    ghost view = { λ a. record { hashes = vec_items a.hashes; malformed = a.malformed; written = a.written; judged = a.judged; mistakes = a.mistakes } };
}

// The hashes that equal the one before them, each once, where equal ones stand together. The flag stands beside the hash that it is
// of: in an option of the hashes still to be listed the walk would need one more test for each hash.
fn repeats_in(heap: Global, sorted: &[[u8; 20]]) -> Result<Vec<[u8; 20]>, AllocError>
    ensures { IfOk result (λ v. v.items ≡ repeats sorted.now) }
{
    let mut out = Vec::new(heap);
    let [first, rest @ ..] = sorted else {
        return Ok(out);
    };
    let mut current = *first;
    let mut listed = false;
    for hash in rest {
        if current == *hash {
            if !listed {
                out.push(current)?;
            }
            listed = true;
        } else {
            current = *hash;
            listed = false;
        }
    }
    Ok(out)
}

// The hashes that are more than once among some. Two sets, of those seen and of those seen again, say it without an order, but look
// each hash up in a tree; a sort passes once over hashes that come sorted.
fn repeats_among(heap: Global, hashes: &[[u8; 20]]) -> Result<Vec<[u8; 20]>, AllocError>
    ensures { IfOk result (λ v. ListsEachRepeatedHashOnce hashes.now v.items) }
{
    let mut sorted = Vec::from_slice(heap, hashes)?;
    sorted.sort_unstable();
    repeats_in(heap, sorted.as_slice())
}

impl Account {
    // An account of no answers.
    pub fn new(heap: Global) -> Account
        ensures nothing_noted { result ≡ empty }
    {
        Account {
            hashes: Vec::new(heap),
            malformed: 0,
            written: 0,
            judged: 0,
            mistakes: 0,
        }
    }

    // Counts one answer more. Where memory fails, the account stays as it was.
    pub fn note(&mut self, reply: &Reply) -> Result<(), AllocError>
        ensures one_answer_more_or_unchanged { self.new ≡ (if is_ok result then noted self.old reply.now else self.old) }
    {
        match reply {
            Reply::Hash(hash) => self.hashes.push(*hash)?,
            Reply::Malformed => self.malformed = self.malformed.saturating_add(1),
            Reply::Text(_) => self.written = self.written.saturating_add(1),
            Reply::Covers(_) => self.judged = self.judged.saturating_add(1),
            Reply::Digest(_) => {}
            Reply::Mistaken(_) => self.mistakes = self.mistakes.saturating_add(1),
        }
        Ok(())
    }

    // Whether a line was no statement.
    pub fn has_mistakes(&self) -> bool
        ensures any_mistake { result ≡ nat_lt 0 self.now.mistakes }
    {
        self.mistakes > 0
    }

    // The counts, as lines of commentary.
    pub fn counts(&self, heap: Global) -> Result<String, AllocError>
        ensures counts_as_defined { IfOk result (λ s. string_bytes s ≡ count_lines self.now) }
    {
        let read = self.hashes.len();
        let Account {
            malformed,
            written,
            judged,
            mistakes,
            ..
        } = self;
        format!(in heap;
            "# texts read as a hash: {read}\n# texts malformed: {malformed}\n# texts written: {written}\n# terms judged: {judged}\n# lines in error: {mistakes}\n"
        )
    }

    // The hashes that came more than once.
    pub fn repeated(&self, heap: Global) -> Result<Vec<[u8; 20]>, AllocError>
        ensures lists_each_repeated_hash_once { IfOk result (λ v. ListsEachRepeatedHashOnce self.now.hashes v.items) }
    {
        repeats_among(heap, self.hashes.as_slice())
    }
}
