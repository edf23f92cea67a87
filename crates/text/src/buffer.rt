// A text being written, and bytes into it.
ghost use Rattle.std.specs.Prelude.{◌≡◌, ◌<◌, [], ◌∷◌, length, IsTrue, ◌↔◌};
ghost use Rattle.text.specs.Emit.{lit, cut, place_after, last_at};
ghost use Rattle.text.specs.Buffer.{Writes};

// The bytes lent for a text, and the place after what is written: one past their end once something did not fit.
#[derive(Drop)]
pub struct Buffer<'a> {
    pub bytes: &'a mut [u8],
    pub at: usize,
}

// The last byte of a text with nothing in it.
const NO_BYTE: u32 = 256;

// As much of s as there is room for. The library's `copy_from_slice` asks for memmove, which an archive for C must not
// need (include/farthingmoss.h).
pub fn fill(rest: &mut [u8], s: &[u8])
    ensures { rest.new ≡ cut rest.old s.now }
{
    for i in 0..s.len().min(rest.len()) {
        rest[i] = s[i];
    }
}

// The place after n bytes more.
pub fn advance(text: &[u8], o: usize, n: usize) -> usize
    ensures { result ≡ place_after (length text.now) o n }
{
    let room = text.len();
    if room < o {
        return o;
    }
    if n <= room - o { o + n } else { room + 1 }
}

// The last byte written, as a number; 256 where there is none.
pub fn last_byte(text: &[u8], o: usize) -> u32
    ensures { result ≡ last_at text.now o }
{
    let end = o.min(text.len());
    if end == 0 {
        NO_BYTE
    } else {
        text[end - 1] as u32
    }
}

impl Buffer<'_> {
    // Whether something did not fit.
    pub fn is_past(&self) -> bool
        ensures { IsTrue result ↔ length self.now.bytes.now < self.now.at }
    {
        self.bytes.len() < self.at
    }

    // The place after n bytes more.
    pub fn place_after(&self, n: usize) -> usize
        ensures { result ≡ place_after (length self.now.bytes.now) self.now.at n }
    {
        advance(self.bytes, self.at, n)
    }

    // The bytes of s.
    pub fn put_bytes(&mut self, s: &[u8])
        ensures { Writes (lit s.now) self.old self.new }
    {
        if self.is_past() {
            return;
        }
        let at = self.at;
        fill(&mut self.bytes[at..], s);
        self.at = self.place_after(s.len());
    }

    // One byte; the first that has no room leaves the place past the end.
    pub fn put(&mut self, b: u8)
        ensures { Writes (lit (b ∷ [])) self.old self.new }
    {
        if self.at < self.bytes.len() {
            self.bytes[self.at] = b;
            self.at += 1;
        } else if self.at == self.bytes.len() {
            self.at += 1;
        }
    }

    // The last byte written, as a number.
    pub fn last_byte(&self) -> u32
        ensures { result ≡ last_at self.now.bytes.now self.now.at }
    {
        last_byte(self.bytes, self.at)
    }
}
