// An answer as text, put into a page.
ghost use Rattle.std.specs.Prelude.{◌≡◌, MatchResult, take};
ghost use Rattle.io.specs.Counts.{IsPrefixLen};
ghost use Rattle.text.specs.Page.{write};
ghost use Rattle.head.specs.Answers.{number_of};
ghost use Rattle.text.specs.Pages.{seen};
ghost use Rattle.trial_script.specs.Answers as answers;

use head::Refusal;
use text::Page;
use verdict::Verdict;

// Room for `refused `, a number and a line feed.
const REFUSED_MOST: usize = 29;

// The refusal's text at the front of out, a local array of its caller, since there is no heap; the answer is its length.
fn refused_text(n: u64, out: &mut [u8; REFUSED_MOST]) -> usize
    ensures prefix_len { IsPrefixLen result out.new }
    ensures out_after { take result out.new ≡ answers.refused_text n }
{
    let mut text = Page::at_front(out);
    text.put(b"refused ");
    text.put_decimal(n);
    text.put(b"\n");
    text.at
}

// From a buffer of its own, so that a refusal is written whole or not at all.
pub fn put_refused(page: &mut Page<'_>, n: u64)
    ensures same_reference { page.new.out.ghost_name ≡ page.old.out.ghost_name }
    ensures value { seen page.new ≡ write (seen page.old) (answers.refused_text n) }
{
    let mut own = [0u8; REFUSED_MOST];
    let k = refused_text(n, &mut own);
    page.put(&own[..k]);
}

// The word of what was done, or the refusal. A match: each arm writes.
fn put_unless_refused(page: &mut Page<'_>, answer: Result<(), Refusal>, done: &[u8])
    ensures same_reference { page.new.out.ghost_name ≡ page.old.out.ghost_name }
    ensures value { MatchResult answer (λ _. seen page.new ≡ write (seen page.old) done.now)
        (λ r. seen page.new ≡ write (seen page.old) (answers.refused_text (number_of r))) }
{
    match answer {
        Ok(()) => page.put(done),
        Err(refusal) => put_refused(page, refusal.into()),
    }
}

#[tactic(auto, unfolding(crate::specs::Answers::begin_text))]
pub fn put_begin(page: &mut Page<'_>, answer: Result<(), Refusal>)
    ensures same_reference { page.new.out.ghost_name ≡ page.old.out.ghost_name }
    ensures value { seen page.new ≡ write (seen page.old) (answers.begin_text answer) }
{
    put_unless_refused(page, answer, b"started\n");
}

#[tactic(auto, unfolding(crate::specs::Answers::answer_text))]
pub fn put_answer(page: &mut Page<'_>, answer: Result<Verdict, Refusal>)
    ensures same_reference { page.new.out.ghost_name ≡ page.old.out.ghost_name }
    ensures value { seen page.new ≡ write (seen page.old) (answers.answer_text answer) }
{
    match answer {
        Ok(Verdict::Admitted) => page.put(b"ok\n"),
        Ok(Verdict::OverShare) => page.put(b"over-share\n"),
        Ok(Verdict::RelayRate) => page.put(b"relay-rate\n"),
        Err(refusal) => put_refused(page, refusal.into()),
    }
}

#[tactic(auto, unfolding(crate::specs::Answers::done_text))]
pub fn put_done(page: &mut Page<'_>, answer: Result<(), Refusal>)
    ensures same_reference { page.new.out.ghost_name ≡ page.old.out.ghost_name }
    ensures value { seen page.new ≡ write (seen page.old) (answers.done_text answer) }
{
    put_unless_refused(page, answer, b"counted\n");
}
