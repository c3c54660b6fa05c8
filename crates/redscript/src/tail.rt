/// How many bytes of a log stand behind its last whole group. It goes by counts and lengths alone, so it is right of a
/// log that has no bad place. Nothing that is replayed rests on it.
#[derive(Clone, Copy)]
pub struct Tail {
    bytes: u64,
    // Whether a group was opened by MULTI.
    is_group_open: bool,
    head: Head,
    // Of the command that is read: its words, how many of them are missing, and how many bytes of one of them.
    words: u64,
    missing_words: u64,
    missing_bytes: u64,
}

// A line `*N` or `$N`, as far as it was read.
#[derive(Clone, Copy)]
struct Head {
    kind: HeadKind,
    number: u64,
    is_negative: bool,
}

#[derive(Clone, Copy)]
enum HeadKind {
    Words,
    Bytes,
}

const LINE_END_BYTES: u64 = 2;

impl Tail {
    /// A log of which nothing was read.
    pub fn new() -> Tail {
        Tail {
            bytes: 0,
            is_group_open: false,
            head: Head::new(HeadKind::Words),
            words: 0,
            missing_words: 0,
            missing_bytes: 0,
        }
    }

    /// How many bytes stand behind the last whole group.
    pub fn bytes(&self) -> u64 {
        self.bytes
    }

    /// Takes the next bytes of the log.
    pub fn take(&mut self, piece: &[u8]) {
        let mut rest = piece;
        for _ in 0..piece.len() {
            let Some((byte, more)) = rest.split_first() else {
                return;
            };
            rest = if self.missing_bytes > 0 {
                self.take_word(rest)
            } else {
                self.take_head(*byte);
                more
            };
        }
    }

    // Takes what has come of a word and its line end, and gives what follows.
    fn take_word<'t>(&mut self, text: &'t [u8]) -> &'t [u8] {
        let come = self.missing_bytes.min(text.len() as u64);
        let (_, rest) = text.split_at(come as usize);
        self.bytes = self.bytes.saturating_add(come);
        self.missing_bytes -= come;
        if self.missing_bytes == 0 {
            self.end_word();
        }
        rest
    }

    fn take_head(&mut self, byte: u8) {
        self.bytes = self.bytes.saturating_add(1);
        match byte {
            b'*' => self.head = Head::new(HeadKind::Words),
            b'$' => self.head = Head::new(HeadKind::Bytes),
            b'\n' => self.end_head(),
            _ => self.head.take(byte),
        }
    }

    fn end_head(&mut self) {
        let number = self.head.value();
        match self.head.kind {
            HeadKind::Words => {
                self.words = number;
                self.missing_words = number;
                if number == 0 {
                    self.end_form();
                }
            }
            HeadKind::Bytes => self.missing_bytes = number.saturating_add(LINE_END_BYTES),
        }
    }

    fn end_word(&mut self) {
        self.missing_words = self.missing_words.saturating_sub(1);
        if self.missing_words > 0 {
            return;
        }
        // Of the commands of one word MULTI alone has five bytes, and EXEC four.
        match (self.words, self.head.value()) {
            (1, 5) => self.is_group_open = true,
            (1, 4) => self.is_group_open = false,
            _ => {}
        }
        self.end_form();
    }

    fn end_form(&mut self) {
        if !self.is_group_open {
            self.bytes = 0;
        }
    }
}

impl Head {
    fn new(kind: HeadKind) -> Head {
        Head {
            kind,
            number: 0,
            is_negative: false,
        }
    }

    // Takes a digit, a sign or the CR.
    fn take(&mut self, byte: u8) {
        match byte {
            b'-' => self.is_negative = true,
            b'0'..=b'9' => {
                let digit = u64::from(byte - b'0');
                self.number = self.number.saturating_mul(10).saturating_add(digit);
            }
            _ => {}
        }
    }

    // The number, or 0 for one below it.
    fn value(&self) -> u64 {
        if self.is_negative { 0 } else { self.number }
    }
}
