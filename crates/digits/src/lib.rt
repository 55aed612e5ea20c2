// A line of text that is being written, with numbers and bytes as digits, and the sheet that lines are written on.
#![tactic(auto, using(crate::proofs::Digits::one_by_one))]

ghost use Rattle.std.specs.Prelude.{cond, [], ◌∷◌, ◌++◌, ◌≡◌, ◌+◌, ◌≤◌, ◌<◌, leb, length, take};
ghost use Rattle.digits.specs.Numerals;
ghost use Rattle.digits.specs.Numerals.{hex_text, decimal_text, tenths_text, bytes_text, pairs, spaces, right_in, padded};
ghost use Rattle.digits.specs.Pieces.{flag_word, number_word, sense_text};
ghost use Rattle.digits.specs.Sheets.{written, wrote, line_text};
ghost use Rattle.digits.specs.Texts.{said, cut};

// ---- a line

// Each line but a byte string has fewer than 128 bytes. Stays a type of its own: std's `InlineText` ends in dots what it cuts, a line is cut as it stands.
#[derive(Clone, Copy)]
pub struct Text {
    pub bytes: [u8; 128],
    pub len: usize,
}

// The digit that stands for d.
fn glyph(d: u32) -> u8
    requires { d < 16 }
    ensures { result ≡ Numerals.glyph d }
{
    if d < 10 {
        b'0' + d as u8
    } else {
        b'A' + (d - 10) as u8
    }
}

// The two digits of a byte, the high one first.
fn pair(b: u8) -> [u8; 2]
    ensures { result ≡ pairs (b ∷ []) }
{
    let high = b as u32 / 16;
    let low = b as u32 % 16;
    [glyph(high), glyph(low)]
}

impl Text {
    pub fn empty() -> Text
        ensures { said result ≡ [] }
    {
        let bytes = [0u8; 128];
        Text { bytes, len: 0 }
    }

    // A text that says these bytes.
    pub fn of(bytes: &[u8]) -> Text
        ensures { said result ≡ cut bytes.now }
    {
        Text::empty().put_all(bytes)
    }

    // What it says: `len` may be any number.
    pub fn as_bytes(&self) -> &[u8]
        ensures { result.now ≡ said self.now }
    {
        &self.bytes[..self.len.min(128)]
    }

    pub fn put(self, b: u8) -> Text
        ensures { said result ≡ cut (said self ++ (b ∷ [])) }
    {
        self.put_all(&[b])
    }

    // Puts as many of these bytes as there is room for.
    pub fn put_all(self, more: &[u8]) -> Text
        ensures { said result ≡ cut (said self ++ more.now) }
    {
        let at = self.len.min(128);
        let n = more.len().min(128 - at);
        let mut bytes = self.bytes;
        bytes[at..at + n].copy_from_slice(&more[..n]);
        Text { bytes, len: at + n }
    }

    // Puts the digit that stands for d.
    fn put_digit(self, d: u32) -> Text
        requires { d < 16 }
        ensures { said result ≡ cut (said self ++ (Numerals.glyph d ∷ [])) }
    {
        self.put(glyph(d))
    }

    // Puts the numeral of n, of at most k digits.
    // Stays a recursion of its own: `write!` promises what it wrote only where it answers Ok, and no clause of std says that it does; this cannot fail.
    fn put_numeral(self, base: u32, k: u32, n: u32) -> Text
        requires lt_base { 1 < base }
        requires base_bound { base ≤ 16 }
        ensures { said result ≡ cut (said self ++ Numerals.numeral base k n) }
    {
        if k == 0 {
            return self;
        }
        if n < base {
            return self.put_digit(n);
        }
        self.put_numeral(base, k - 1, n / base).put_digit(n % base)
    }

    pub fn put_hex(self, n: u32) -> Text
        ensures { said result ≡ cut (said self ++ hex_text n) }
    {
        self.put_numeral(16, 8, n)
    }

    pub fn put_decimal(self, n: u32) -> Text
        ensures { said result ≡ cut (said self ++ decimal_text n) }
    {
        self.put_numeral(10, 10, n)
    }

    pub fn put_tenths(self, n: u32) -> Text
        ensures { said result ≡ cut (said self ++ tenths_text n) }
    {
        self.put_decimal(n / 10).put(b'.').put_digit(n % 10)
    }

    pub fn put_pair(self, b: u8) -> Text
        ensures { said result ≡ cut (said self ++ pairs (b ∷ [])) }
    {
        self.put_all(&pair(b))
    }

    fn put_blanks(self, n: usize) -> Text
        ensures { said result ≡ cut (said self ++ spaces n) }
    {
        self.put_all(&[b' '; 128][..n.min(128)])
    }

    // Puts what `piece` says at the right end of a column.
    pub fn put_right(self, piece: Text, width: usize) -> Text
        ensures { said result ≡ cut (said self ++ right_in width (said piece)) }
    {
        let bytes = piece.as_bytes();
        self.put_blanks(width.saturating_sub(bytes.len()))
            .put_all(bytes)
    }

    // Puts blanks up to a column.
    pub fn pad_to(self, width: usize) -> Text
        ensures { said result ≡ cut (padded width (said self)) }
    {
        let used = self.as_bytes().len();
        self.put_blanks(width.saturating_sub(used))
    }

    // Puts one of two pieces, by a flag.
    pub fn put_either(self, flag: bool, yes: &[u8], no: &[u8]) -> Text
        ensures { said result ≡ cut (said self ++ cond flag yes.now no.now) }
    {
        self.put_all(if flag { yes } else { no })
    }

    pub fn put_flag(self, flag: bool) -> Text
        ensures { said result ≡ cut (said self ++ flag_word flag) }
    {
        self.put_either(flag, b" 1", b" 0")
    }

    pub fn put_number(self, n: u32) -> Text
        ensures { said result ≡ cut (said self ++ number_word n) }
    {
        self.put(b' ').put_hex(n)
    }

    // A sense's bytes, the first after `before`, the others after `between`.
    pub fn put_sense(self, key: u8, asc: u8, ascq: u8, before: u8, between: u8) -> Text
        ensures { said result ≡ cut (said self ++ sense_text before between key asc ascq) }
    {
        let first = self.put(before).put_pair(key);
        first.put(between).put_pair(asc).put(between).put_pair(ascq)
    }
}

// ---- a sheet

// What lines are written on, one behind the other, and how far it is written.
#[derive(Drop)]
pub struct Sheet<'a> {
    pub bytes: &'a mut [u8],
    pub len: usize,
}

impl<'a> Sheet<'a> {
    // A sheet on a buffer that is written up to `len`.
    pub fn on(bytes: &'a mut [u8], len: usize) -> Sheet<'a>
        ensures { written result ≡ record { bytes = bytes.old; len = len; lent = bytes.entry.ghost_name } }
    {
        Sheet { bytes, len }
    }

    // Whether n more bytes have room; the sum is not taken, since `len` may be any number.
    fn has_room(&self, n: usize) -> bool
        ensures { result ≡ leb (self.now.len + n) (length self.now.bytes.now) }
    {
        self.len <= self.bytes.len() && n <= self.bytes.len() - self.len
    }

    // Writes bytes as they are, if there is room.
    pub fn put(&mut self, bytes: &[u8])
        ensures { written self.new ≡ wrote (written self.old) bytes.now }
    {
        if self.has_room(bytes.len()) {
            rows::copy_in(bytes, self.bytes, self.len);
            self.len += bytes.len();
        }
    }

    pub fn put_text(&mut self, text: Text)
        ensures { written self.new ≡ wrote (written self.old) (said text) }
    {
        self.put(text.as_bytes());
    }

    pub fn put_line(&mut self, text: Text)
        ensures { written self.new ≡ wrote (written self.old) (line_text (said text)) }
    {
        self.put_text(text.put(b'\n'));
    }

    // Writes bytes as a byte string, two digits for each, if there is room.
    pub fn put_bytes(&mut self, bytes: &[u8])
        ensures { written self.new ≡ wrote (written self.old) (bytes_text bytes.now) }
    {
        if bytes.is_empty() {
            return self.put(b"-");
        }
        if self.has_room(2 * bytes.len()) {
            for b in bytes {
                self.put(&pair(*b));
            }
        }
    }
}
