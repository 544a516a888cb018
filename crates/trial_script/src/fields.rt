// The fields of a line and the numbers in them.
ghost use Rattle.std.specs.Prelude.{◌≡◌, ◌-◌, ◌<◌, ◌==◌, MatchOption, false, position, take, true};
ghost use Rattle.io.specs.Counts.{IsPrefixLen};
ghost use Rattle.text.specs.Number.{decimal};
ghost use Rattle.trial_script.specs.Fields as fields;

use text::Page;

// The longest decimal of a u64.
const DIGITS: usize = 20;

const SPACE: u8 = b' ';

// Where the first space stands.
fn space_at(s: &[u8]) -> Option<usize>
    ensures { result ≡ position (λ x. x == 32) s.now }
{
    s.iter().position(|x| *x == SPACE)
}

// The first field, and what stands behind the space after it; nothing where there is no space.
pub fn split(s: &[u8]) -> (&[u8], &[u8])
    ensures first { result.0.now ≡ fields.first s.now }
    ensures rest { result.1.now ≡ fields.rest s.now }
{
    match space_at(s) {
        Some(i) => (&s[..i], &s[i + 1..]),
        None => (s, &[]),
    }
}

// The first field.
pub fn first(s: &[u8]) -> &[u8]
    ensures { result.now ≡ fields.first s.now }
{
    split(s).0
}

// What stands behind the first field and the space after it.
pub fn rest(s: &[u8]) -> &[u8]
    ensures { result.now ≡ fields.rest s.now }
{
    split(s).1
}

// A number and one digit more; the number itself where it would not fit. Numbers are read so, and compared with their decimals,
// since std's `parse` takes a sign and zeros in front.
#[tactic(auto, unfolding(crate::specs::Fields::grown))]
fn grown(n: u64, x: u8) -> u64
    ensures { result ≡ fields.grown n x }
{
    let d = u64::from(x.saturating_sub(b'0'));
    n.checked_mul(10)
        .and_then(|m| m.checked_add(d))
        .unwrap_or(n)
}

// The number that the bytes make, read as digits without asking whether they are.
#[tactic(auto, using(crate::proofs::Walking::number_fold))]
fn number_in(s: &[u8]) -> u64
    ensures { result ≡ fields.number_in s.now }
{
    s.iter().fold(0, |n, x| grown(n, *x))
}

// The decimal of n at the front of out, a local array of its caller, since there is no heap; the answer is its length.
fn decimal_text(n: u64, out: &mut [u8; DIGITS]) -> usize
    ensures prefix_len { IsPrefixLen result out.new }
    ensures out_after { take result out.new ≡ decimal n }
{
    let mut text = Page::at_front(out);
    text.put_decimal(n);
    text.at
}

// The number whose decimal s is.
#[tactic(auto, using(crate::proofs::Walking::number_is))]
fn number(s: &[u8]) -> Option<u64>
    ensures { MatchOption result (fields.is_number s.now ≡ false) (λ n. (fields.is_number s.now ≡ true) × (n ≡ fields.number_in s.now)) }
{
    let n = number_in(s);
    let mut own = [0u8; DIGITS];
    let k = decimal_text(n, &mut own);
    (&own[..k] == s).then_some(n)
}

// The N numbers that s is, with one space between each two. Its array is filled by place, since each turn goes on with the text
// that the one before left.
pub fn numbers<const N: usize>(s: &[u8]) -> Option<[u64; N]>
    requires { 0 < N }
    ensures { MatchOption result (fields.are_numbers (N - 1) s.now ≡ false)
        (λ xs. (fields.are_numbers (N - 1) s.now ≡ true) × (xs ≡ fields.numbers N s.now)) }
{
    let last = N - 1;
    let mut numbers = [0; N];
    let mut left = s;
    for k in 0..last {
        let (field, behind) = split(left);
        numbers[k] = number(field)?;
        left = behind;
    }
    numbers[last] = number(left)?;
    Some(numbers)
}

// Whether s is a number: the decimal of a u64. It stays for are_numbers.
fn is_number(s: &[u8]) -> bool
    ensures { result ≡ fields.is_number s.now }
{
    number(s).is_some()
}

// Whether s is a number and `more` numbers behind it, with one space between each two. It stays without a caller, since its
// promise is of any count, known only as the program runs, and `numbers` asks for a constant one.
pub fn are_numbers(s: &[u8], more: usize) -> bool
    ensures { result ≡ fields.are_numbers more s.now }
{
    if more == 0 {
        return is_number(s);
    }
    let (field, behind) = split(s);
    if !is_number(field) {
        return false;
    }
    are_numbers(behind, more - 1)
}

// The number in the field of index k, read as digits without asking whether they are. It stays without a caller, since its
// promise is of any text, and `numbers` gives none where a field is no number.
pub fn number_at(s: &[u8], k: usize) -> u64
    ensures { result ≡ fields.number_at k s.now }
{
    let (field, behind) = split(s);
    if k == 0 {
        number_in(field)
    } else {
        number_at(behind, k - 1)
    }
}
