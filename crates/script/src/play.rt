// A whole input played: each statement answered in order, and an account of all.
ghost use Rattle.std.specs.Prelude.{◌≡◌, ◌==◌, cond, List, [], ◌∷◌, ◌++◌, IfOk, OnOk};
ghost use Rattle.account.specs.Accounts.{empty};
ghost use Rattle.script.specs.Plays.{reply_to_line, shown_reply, noted_reply, transcript, account_of};

use account::Account;
use reply::{Reply, evaluate, line};
use statement::lines::trim;
use statement::parse;
use std::alloc::{AllocError, Global};

// What was printed, and the account.
#[derive(Drop)]
pub struct Session {
    pub output: Vec<u8>,
    pub account: Account,
}

// The answer to a line, if it says something.
fn reply_to(heap: Global, text: &[u8]) -> Result<Option<Reply>, AllocError>
    ensures { IfOk result (λ o. o ≡ reply_to_line text.now) }
{
    evaluate(heap, parse(trim(text)))
}

impl Session {
    // A session in which nothing was said.
    fn new(heap: Global) -> Session
        ensures nothing_printed { result.output.items ≡ [] }
        ensures nothing_noted { result.account ≡ empty }
    {
        Session {
            output: Vec::new(heap),
            account: Account::new(heap),
        }
    }

    // Answers one line.
    fn answer(&mut self, heap: Global, number: usize, text: &[u8]) -> Result<(), AllocError>
        ensures printed { OnOk result (self.new.output.items ≡ self.old.output.items ++ shown_reply number (reply_to_line text.now)) }
        ensures noted { OnOk result (self.new.account ≡ noted_reply self.old.account (reply_to_line text.now)) }
    {
        let Some(reply) = reply_to(heap, text)? else {
            return Ok(());
        };
        let mut shown = line(heap, number as u64, &reply)?;
        shown.push(b'\n')?;
        self.output.extend_from_slice(shown.as_slice())?;
        self.account.note(&reply)
    }
}

fn ends_line(c: &u8) -> bool
    ensures { result ≡ (c.now == 10) }
{
    *c == b'\n'
}

// Plays an input: answers each of its statements, in order.
pub fn play(heap: Global, input: &[u8]) -> Result<Session, AllocError>
    ensures one_line_for_each_statement { IfOk result (λ s. s.output.items ≡ transcript input.now) }
    ensures each_answer_noted { IfOk result (λ s. s.account ≡ account_of input.now) }
{
    let mut session = Session::new(heap);
    for (i, text) in input.split(ends_line).enumerate() {
        session.answer(heap, i + 1, text)?;
    }
    Ok(session)
}
