// The file of cases: numbers parted by blanks and line ends, letters and texts. Whatever bytes it has, reading goes on.
ghost use Rattle.std.specs.Prelude.{◌<◌, IfSome};
ghost use Rattle.vectors.specs.Reader.{Passed, PassedSome};

// What is left of the file.
#[derive(Clone, Copy)]
pub(crate) struct Reader<'a> {
    rest: &'a [u8],
}

// How a line begins: the number of its case, if it is one, and a letter that says what follows.
#[derive(Clone, Copy)]
pub(crate) struct Head {
    pub case: usize,
    pub letter: u8,
}

fn is_blank(b: u8) -> bool {
    matches!(b, b' ' | b'\n')
}

fn digit(b: u8) -> Option<usize>
    ensures { IfSome result (λ d. d < 10) }
{
    match b {
        b'0'..=b'9' => Some(usize::from(b - b'0')),
        _ => None,
    }
}

// One digit more; the highest usize where there are too many.
fn with_digit(v: usize, d: usize) -> usize
    requires { d < 10 }
{
    // by hand: checked_mul and checked_add let a few more numbers through, up to the highest itself
    if v < usize::MAX / 10 {
        return v * 10 + d;
    }
    usize::MAX
}

// The first numbers of a buffer, as many as are wanted and it has room for.
pub(crate) fn first<T>(buffer: &mut [T], wanted: usize) -> &mut [T] {
    let size = wanted.min(buffer.len());
    &mut buffer[..size]
}

impl<'a> Reader<'a> {
    pub fn new(file: &'a [u8]) -> Reader<'a> {
        Reader { rest: file }
    }

    // Passes the bytes of a kind that come next.
    fn pass<F: Fn(u8) -> bool>(&mut self, is_of_kind: F)
        requires { F.IsAlwaysCallable is_of_kind }
        ensures { Passed self.old self.new }
    {
        let other = self.rest.iter().position(|b| !is_of_kind(*b));
        let end = other.unwrap_or(self.rest.len());
        self.rest = &self.rest[end..];
    }

    // The next byte; none at the end.
    pub fn byte(&mut self) -> Option<u8>
        ensures some { IfSome result (λ _. PassedSome self.old self.new) }
        ensures passed { Passed self.old self.new }
    {
        let (first, rest) = self.rest.split_first()?;
        self.rest = rest;
        Some(*first)
    }

    // The next number without a sign, 0 if there is none.
    pub fn natural(&mut self) -> usize
        ensures { Passed self.old self.new }
    {
        self.pass(is_blank);
        let mut value = 0;
        while let Some((first, rest)) = self.rest.split_first()
            && let Some(d) = digit(*first)
        {
            value = with_digit(value, d);
            self.rest = rest;
        }
        value
    }

    // So many numbers without a sign.
    pub fn naturals<const N: usize>(&mut self) -> [usize; N]
        ensures { Passed self.old self.new }
    {
        let mut all = [0; N];
        for x in all.iter_mut() {
            *x = self.natural();
        }
        all
    }

    // The next number; the nearest i64 where it is none.
    pub fn number(&mut self) -> i64
        ensures { Passed self.old self.new }
    {
        self.pass(is_blank);
        if let Some(rest) = self.rest.strip_prefix(b"-") {
            self.rest = rest;
            return 0i64.saturating_sub_unsigned(self.natural() as u64);
        }
        0i64.saturating_add_unsigned(self.natural() as u64)
    }

    // Reads numbers into the first of a buffer, as many as are wanted and it has room for, and hands those out.
    pub fn fill<'b>(&mut self, buffer: &'b mut [i64], wanted: usize) -> &'b mut [i64]
        ensures { Passed self.old self.new }
    {
        let t = first(buffer, wanted);
        for z in t.iter_mut() {
            *z = self.number();
        }
        t
    }

    // How the next line begins; none at the end.
    pub fn head(&mut self) -> Option<Head>
        ensures some { IfSome result (λ _. PassedSome self.old self.new) }
        ensures passed { Passed self.old self.new }
    {
        let case = self.natural();
        self.pass(is_blank);
        let letter = self.byte()?;
        Some(Head { case, letter })
    }

    // The next bytes, as far as the file goes.
    pub fn bytes(&mut self, wanted: usize) -> &'a [u8]
        ensures { Passed self.old self.new }
    {
        let (bytes, rest) = self.rest.split_at(wanted.min(self.rest.len()));
        self.rest = rest;
        bytes
    }

    // Passes what is left of the line.
    pub fn line(&mut self)
        ensures { Passed self.old self.new }
    {
        self.pass(|b| b != b'\n');
    }
}
