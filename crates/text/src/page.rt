// A lent buffer and the place where the next text goes. A text that does not fit from there on is not written at all: the buffer
// keeps its bytes, and the place stays.
ghost use Rattle.std.specs.Prelude.{◌≡◌, ◌+◌, ◌≤◌, length};
ghost use Rattle.text.specs.Page.{page, write};
ghost use Rattle.text.specs.Pages.{seen};
ghost use Rattle.text.specs.Number as number;

// Copies the text to its place. By place, and not by `copy_from_slice`: its code calls the C library's memmove, which the archive
// for C would then need beside memcpy and memset.
fn copy(out: &mut [u8], at: usize, text: &[u8])
    requires { at + length text.now ≤ length out.old }
    ensures { page out.new (at + length text.now) ≡ write (page out.old at) text.now }
{
    for i in 0..text.len() {
        out[at + i] = text[i];
    }
}

#[derive(Drop)]
pub struct Page<'a> {
    pub out: &'a mut [u8],
    pub at: usize,
}

impl<'a> Page<'a> {
    pub fn at_front(out: &'a mut [u8]) -> Page<'a>
        ensures same_reference { result.out.ghost_name ≡ out.entry.ghost_name }
        ensures value { seen result ≡ page out.old 0 }
    {
        Page { out, at: 0 }
    }

    // Puts the bytes of text from the place on.
    #[tactic(auto, using(crate::proofs::Writing::refused))]
    pub fn put(&mut self, text: &[u8])
        ensures same_reference { self.new.out.ghost_name ≡ self.old.out.ghost_name }
        ensures value { seen self.new ≡ write (seen self.old) text.now }
    {
        let end = self.at.saturating_add(text.len());
        if self.out.len() < end {
            return;
        }
        copy(self.out, self.at, text);
        self.at = end;
    }

    // n in decimal, with no zero in front.
    #[tactic(auto, using(crate::proofs::Numbers::fewest_decimal))]
    pub fn put_decimal(&mut self, n: u64)
        ensures same_reference { self.new.out.ghost_name ≡ self.old.out.ghost_name }
        ensures value { seen self.new ≡ write (seen self.old) (number.decimal n) }
    {
        let mut decimal = [0u8; 20];
        let k = io::decimal(n, &mut decimal);
        self.put(&decimal[..k]);
    }

    // n in lowercase hexadecimal, with no zero in front. One function with put_word, over the count of digits, would have a clause
    // for each of the two definitions, and be no plainer.
    #[tactic(auto, using(crate::proofs::Numbers::fewest_hexadecimal))]
    pub fn put_hexadecimal(&mut self, n: u64)
        ensures same_reference { self.new.out.ghost_name ≡ self.old.out.ghost_name }
        ensures value { seen self.new ≡ write (seen self.old) (number.hexadecimal n) }
    {
        let mut hexadecimal = [0u8; 16];
        let k = io::hex(n, 1, &mut hexadecimal);
        self.put(&hexadecimal[..k]);
    }

    // All sixteen hexadecimal digits of n.
    #[tactic(auto, using(crate::proofs::Numbers::fewest_word))]
    pub fn put_word(&mut self, n: u64)
        ensures same_reference { self.new.out.ghost_name ≡ self.old.out.ghost_name }
        ensures value { seen self.new ≡ write (seen self.old) (number.word n) }
    {
        let mut word = [0u8; 16];
        let k = io::hex(n, 16, &mut word);
        self.put(&word[..k]);
    }
}
