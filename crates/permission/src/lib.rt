// Permission terms: which names a term covers, decided over its bytes where they lie.
#![tactic(auto)]

ghost use Rattle.std.specs.Prelude.{◌≡◌, ◌&&◌, Decides};
ghost use Rattle.permission.specs.Answers.{SomeWellFormedTerm, Answers, OnlyAnswer, OneTermAtMost};
ghost use Rattle.permission.specs.Reading.{reading_of, all_graphic, is_name, text_in, name_in, not_after, elt_in, prefix_in, range_in, members_in, count_in, set_in, term_in, judged, any_judged, judged_whole, well_formed, covering};
ghost use Rattle.std.specs.Option.{option_map};

use refusal::Refusal;

// The form byte of a term, which decides what follows it. Constants, and no enum: they stand in the patterns of slices, before what follows.
const ALL: u8 = 0x01;

const ELT: u8 = 0x02;

const PREFIX: u8 = 0x03;

const RANGE: u8 = 0x04;

const SET: u8 = 0x05;

const MAX_TEXT: usize = 16;

const MAX_MEMBERS: u8 = 8;

const MAX_DEPTH: u8 = 4;

const MAX_TERM: usize = 48;

// Whether the bytes are a well-formed term.
pub fn is_well_formed(term: &[u8]) -> bool
    ensures as_defined { result ≡ well_formed term.now }
    ensures yes_exactly_for_a_well_formed_term { Decides result (SomeWellFormedTerm term.now) }
    ensures bytes_encode_at_most_one_term { OneTermAtMost term.now }
{
    whole(term, b"").is_some()
}

// Whether a well-formed term covers a name; anything else is refused as malformed.
pub fn covers(term: &[u8], name: &[u8]) -> Result<bool, Refusal>
    ensures as_defined { result ≡ covering term.now name.now }
    ensures answers_for_the_encoded_term { Answers term.now name.now result }
    ensures nothing_else_is_an_answer { OnlyAnswer term.now name.now result }
{
    if !is_name(name) {
        return Err(Refusal::Malformed);
    }
    whole(term, name).ok_or(Refusal::Malformed)
}

// One walk over the whole of the bytes: whether the term covers the name, or none where they are malformed.
fn whole(term: &[u8], name: &[u8]) -> Option<bool>
    ensures { result ≡ judged_whole term.now name.now }
{
    if term.len() > MAX_TERM {
        return None;
    }
    // A row of one term: the walk is then one loop, in which only a set within a set costs a call.
    let (covers, rest) = members_in(term, name, MAX_DEPTH, 1)?;
    rest.is_empty().then_some(covers)
}

// The term at the front, with sets nested at most `deep`: whether it covers the name, and the bytes after it.
// What is left and the name are no struct: each step would make it anew, since only what is left changes.
#[cycle(members_in_set_in_term_in)]
fn term_in<'a>(bytes: &'a [u8], name: &[u8], deep: u8) -> Option<(bool, &'a [u8])>
    ensures { reading_of result ≡ judged name.now (term_in deep bytes.now) }
{
    match bytes {
        [ALL, rest @ ..] => Some((true, rest)),
        [ELT, rest @ ..] => elt_in(rest, name),
        [PREFIX, rest @ ..] => prefix_in(rest, name),
        [RANGE, rest @ ..] => range_in(rest, name),
        [SET, rest @ ..] => set_in(rest, name, deep),
        _ => None,
    }
}

// What follows the form byte of a set: a count and that many terms, with sets nested one level less.
#[cycle(members_in_set_in_term_in)]
fn set_in<'a>(bytes: &'a [u8], name: &[u8], deep: u8) -> Option<(bool, &'a [u8])>
    ensures { reading_of result ≡ judged name.now (set_in deep bytes.now) }
{
    let (n, rest) = count_in(bytes, deep)?;
    members_in(rest, name, deep - 1, n)
}

// The count of a set's members, and the bytes from the first of them on; none where a set may not stand so deep.
fn count_in<'a>(bytes: &'a [u8], deep: u8) -> Option<(u8, &'a [u8])>
    ensures { reading_of result ≡ count_in deep bytes.now }
{
    let (n, rest) = bytes.split_first()?;
    (deep > 0 && *n <= MAX_MEMBERS).then_some((*n, rest))
}

// The next `n` terms: whether any of them covers the name, and the bytes after them.
#[cycle(members_in_set_in_term_in)]
fn members_in<'a>(bytes: &'a [u8], name: &[u8], deep: u8, n: u8) -> Option<(bool, &'a [u8])>
    ensures { reading_of result ≡ any_judged name.now (members_in (term_in deep) n bytes.now) }
{
    // No `for`: what is left changes where a set comes last.
    let mut any = false;
    let mut rest = bytes;
    let mut deep = deep;
    let mut left = n;
    while left > 0 {
        match rest {
            // Behind the last member's own members nothing of this row is left: they take its place, and no call is made.
            [SET, inner @ ..] if left == 1 => {
                let (count, members) = count_in(inner, deep)?;
                deep -= 1;
                left = count;
                rest = &members[0..];
            }
            _ => {
                let (covers, after) = term_in(rest, name, deep)?;
                any |= covers;
                left -= 1;
                // Sliced anew it stays in registers; copied, it goes through memory, at twice the time for a walk.
                rest = &after[0..];
            }
        }
    }
    Some((any, rest))
}

// What follows the form byte of an elt: whether the name is its own, and the bytes after the term.
fn elt_in<'a>(bytes: &'a [u8], name: &[u8]) -> Option<(bool, &'a [u8])>
    ensures { reading_of result ≡ judged name.now (elt_in bytes.now) }
{
    let (own, after) = name_in(bytes)?;
    Some((own == name, after))
}

// The same for a prefix, which may be empty. One function for both would take the reader and the test as closures.
fn prefix_in<'a>(bytes: &'a [u8], name: &[u8]) -> Option<(bool, &'a [u8])>
    ensures { reading_of result ≡ judged name.now (prefix_in bytes.now) }
{
    let (front, after) = text_in(bytes)?;
    Some((name.starts_with(front), after))
}

// The same for a range: low above high is malformed.
fn range_in<'a>(bytes: &'a [u8], name: &[u8]) -> Option<(bool, &'a [u8])>
    ensures { reading_of result ≡ judged name.now (range_in bytes.now) }
{
    let (low, rest) = name_in(bytes)?;
    let (high, after) = name_in(rest)?;
    if low > high {
        return None;
    }
    Some((is_between(low, name, high), after))
}

// The order of names is by byte, and a name comes before its own extensions.
#[tactic(auto, using(crate::proofs::Names::le_is_not_after))]
fn is_between(low: &[u8], name: &[u8], high: &[u8]) -> bool
    ensures { result ≡ (not_after low.now name.now && not_after name.now high.now) }
{
    low <= name && name <= high
}

// A length byte and that many bytes of text, and what follows.
#[tactic(auto, unfolding(crate::specs::Reading::text_in))]
fn text_in<'a>(bytes: &'a [u8]) -> Option<(&'a [u8], &'a [u8])>
    ensures { option_map (λ p. (p.0.now, p.1.now)) result ≡ text_in bytes.now }
{
    let (n, rest) = bytes.split_first()?;
    let n = usize::from(*n);
    if n > MAX_TEXT {
        return None;
    }
    let (text, after) = rest.split_at_checked(n)?;
    all_graphic(text).then_some((text, after))
}

// A text that is not empty, and what follows.
fn name_in<'a>(bytes: &'a [u8]) -> Option<(&'a [u8], &'a [u8])>
    ensures { option_map (λ p. (p.0.now, p.1.now)) result ≡ name_in bytes.now }
{
    let (name, after) = text_in(bytes)?;
    (!name.is_empty()).then_some((name, after))
}

// Whether the bytes are a name.
pub fn is_name(bytes: &[u8]) -> bool
    ensures as_defined { result ≡ is_name bytes.now }
{
    !bytes.is_empty() && bytes.len() <= MAX_TEXT && all_graphic(bytes)
}

// Whether names may hold each of the bytes. With no early exit the bytes are tested several at a time.
fn all_graphic(bytes: &[u8]) -> bool
    ensures { result ≡ all_graphic bytes.now }
{
    bytes
        .iter()
        .fold(true, |all, byte| all & byte.is_ascii_graphic())
}
