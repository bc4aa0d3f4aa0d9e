// A plan that is read from text, byte by byte: the numbers of its moves, or the line and the fault.
// Definitions: specs/Text.antt for what the text says, specs/Faults.antt for what is wrong with it, specs/Kept.antt for which numbers are kept,
// specs/Reading.antt for how the code goes.
#![tactic(auto)]

ghost use Rattle.std.specs.Prelude.{◌≡◌};
ghost use Rattle.std.specs.Option.{unwrap_or};
ghost use Rattle.plantext.specs.Text.{hex_value};
ghost use Rattle.plantext.specs.Reading.{begin, base, behind, wrong, before, missing, grown, value_after, character, stored, field_end};
ghost use Rattle.plantext.specs.Reading.{closed, hash, letter, line_end, resolved, step, fed, ended};

pub mod numbers;

// How many numbers there is room for: those of 17 moves. A plan has at most 16.
pub const ROOM: usize = 68;

// What is wrong with a line.
#[derive(Clone, Copy, PartialEq, Eq, Debug)]
pub enum Fault {
    NoWord,
    NoSettling,
    NoReadingWord,
    NoReading,
    SettlingMissing,
    ReadingWordMissing,
    ReadingMissing,
    Behind,
}

// The kinds of fields, in the order of a line.
#[derive(Clone, Copy, PartialEq, Eq, Debug)]
enum Kind {
    MoveWord,
    Settling,
    ReadingWord,
    Reading,
}

// What the characters of a field so far are.
#[derive(Clone, Copy, PartialEq, Eq, Debug)]
enum Number {
    // so many digits, which are too few, and their value; none before the first character
    Few(u8, u32),
    // a number as they stand
    Whole(u32),
    // no number, whatever follows
    Never,
}

// Where on its line the reader stands.
#[derive(Clone, Copy, PartialEq, Eq, Debug)]
enum Place {
    // before a field, or in it
    In(Kind, Number),
    // behind the fourth
    Past,
    // behind a `#`
    Remark,
}

// What was read so far.
#[derive(Clone, Copy)]
pub struct Reader {
    // of each move its word, settling, word, reading, as far as there is room
    pub numbers: numbers::Numbers,
    // the present line, from 1 on, or that of the fault
    pub line: u64,
    pub fault: Option<Fault>,
    place: Place,
    // a CR came, of which the next byte says what it is
    cr: bool,
}

// ---- fields

impl Kind {
    // The base of its digits: 16 for the words, 10 for the times.
    fn base(self) -> u32
        ensures base { result ≡ base self }
    {
        match self {
            Kind::MoveWord | Kind::ReadingWord => 16,
            Kind::Settling | Kind::Reading => 10,
        }
    }

    // The place behind it: before the next field, if there is one.
    fn behind(self) -> Place
        ensures place { result ≡ behind self }
    {
        match self {
            Kind::MoveWord => Place::before(Kind::Settling),
            Kind::Settling => Place::before(Kind::ReadingWord),
            Kind::ReadingWord => Place::before(Kind::Reading),
            Kind::Reading => Place::Past,
        }
    }

    // The fault of a line on which it is wrong.
    fn wrong(self) -> Fault
        ensures fault { result ≡ wrong self }
    {
        match self {
            Kind::MoveWord => Fault::NoWord,
            Kind::Settling => Fault::NoSettling,
            Kind::ReadingWord => Fault::NoReadingWord,
            Kind::Reading => Fault::NoReading,
        }
    }
}

impl Place {
    // Before a field.
    fn before(kind: Kind) -> Place
        ensures place { result ≡ before kind }
    {
        Place::In(kind, Number::Few(0, 0))
    }

    // The fault of a line that ends there: none where it has no field, or all four.
    fn missing(self) -> Option<Fault>
        ensures fault { result ≡ missing self }
    {
        match self {
            Place::In(Kind::Settling, _) => Some(Fault::SettlingMissing),
            Place::In(Kind::ReadingWord, _) => Some(Fault::ReadingWordMissing),
            Place::In(Kind::Reading, _) => Some(Fault::ReadingMissing),
            _ => None,
        }
    }
}

// ---- digits

// The value of a hex digit of either case; no other character has one.
#[tactic(auto, unfolding(crate::specs::Text::hex_value))]
fn hex_value(c: u8) -> Option<u8>
    ensures value { unwrap_or result 16 ≡ hex_value c }
{
    match c {
        b'a'..=b'f' => Some(c - b'a' + 10),
        _ => formats::digit_value(c),
    }
}

// The number with a digit of value x more, or the largest where that is more.
fn value_after(base: u32, v: u32, x: u32) -> u32
    ensures value { result ≡ value_after base v x }
{
    v.saturating_mul(base).saturating_add(x)
}

impl Number {
    // What it is in a field of that kind with a character more.
    #[tactic(auto, using(crate::proofs::Fields::no_value), unfolding(crate::specs::Reading::grown))]
    fn grown(self, kind: Kind, c: u8) -> Number
        ensures number { result ≡ grown (base kind) (hex_value c) self }
    {
        let base = kind.base();
        let Some(x) = hex_value(c) else {
            return Number::Never;
        };
        let x = x as u32;
        if base <= x {
            return Number::Never;
        }
        match self {
            Number::Few(n, v) if base == 16 && n < 7 => {
                Number::Few(n + 1, value_after(base, v, x))
            }
            Number::Few(_, v) => Number::Whole(value_after(base, v, x)),
            Number::Whole(v) if base == 10 => Number::Whole(value_after(base, v, x)),
            _ => Number::Never,
        }
    }
}

// ---- the text

// Nothing was read.
pub fn begin() -> Reader
    ensures begins { result ≡ begin }
{
    Reader {
        numbers: numbers::Numbers::new(),
        line: 1,
        fault: None,
        place: Place::before(Kind::MoveWord),
        cr: false,
    }
}

impl Reader {
    // A character of a field: behind the fourth there is none, in a remark it is passed over.
    #[tactic(auto, unfolding(crate::specs::Reading::character))]
    fn read_plain(&mut self, c: u8)
        ensures read { self.new ≡ character c self.old }
    {
        match self.place {
            Place::In(kind, number) => {
                self.place = Place::In(kind, number.grown(kind, c));
            }
            Place::Past => self.fault = Some(Fault::Behind),
            Place::Remark => {}
        }
    }

    // The number of a field is stored, where there is room.
    #[tactic(auto, using(crate::proofs::Storing::one_more))]
    fn store(&mut self, n: u32)
        ensures stored { self.new ≡ stored n self.old }
    {
        if !self.numbers.is_full() {
            self.numbers.push(n);
        }
    }

    // A field is over, if there was one.
    #[tactic(auto, unfolding(crate::specs::Reading::field_end))]
    fn end_field(&mut self)
        ensures read { self.new ≡ field_end self.old }
    {
        match self.place {
            Place::In(kind, Number::Whole(n)) => {
                self.store(n);
                self.place = kind.behind();
            }
            Place::In(_, Number::Few(0, _)) | Place::Past | Place::Remark => {}
            Place::In(kind, _) => self.fault = Some(kind.wrong()),
        }
    }

    // Nothing more of a line counts: has it all its fields? A fault that was found stays.
    #[tactic(auto, unfolding(crate::specs::Reading::closed))]
    fn close(&mut self)
        ensures read { self.new ≡ closed self.old }
    {
        if self.fault.is_none() {
            self.end_field();
        }
        if self.fault.is_none() {
            self.fault = self.place.missing();
        }
    }

    // A remark begins.
    #[tactic(auto, unfolding(crate::specs::Reading::hash))]
    fn begin_remark(&mut self)
        ensures read { self.new ≡ hash self.old }
    {
        self.close();
        if self.fault.is_none() {
            self.place = Place::Remark;
        }
    }

    // A line is over. The largest number stands for every line behind it.
    #[tactic(auto, unfolding(crate::specs::Reading::line_end))]
    fn end_line(&mut self)
        ensures read { self.new ≡ line_end self.old }
    {
        self.close();
        if self.fault.is_none() {
            self.line = self.line.saturating_add(1);
            self.place = Place::before(Kind::MoveWord);
        }
    }

    // A character of a line.
    #[tactic(auto, unfolding(crate::specs::Reading::letter))]
    fn read(&mut self, c: u8)
        ensures read { self.new ≡ letter c self.old }
    {
        if self.fault.is_some() {
            return;
        }
        match c {
            b' ' | b'\t' => self.end_field(),
            b'#' => self.begin_remark(),
            _ => self.read_plain(c),
        }
    }

    // A CR that no LF follows is a character of its line.
    #[tactic(auto, unfolding(crate::specs::Reading::resolved))]
    fn resolve(&mut self)
        ensures read { self.new ≡ resolved self.old }
    {
        if self.cr {
            self.cr = false;
            self.read(b'\r');
        }
    }

    // A byte of the text.
    #[tactic(auto, unfolding(crate::specs::Reading::step, crate::specs::Reading::byte_after))]
    fn step(&mut self, x: u8)
        ensures read { self.new ≡ step x self.old }
    {
        match x {
            b'\n' => {
                self.cr = false;
                self.end_line();
            }
            b'\r' => {
                self.resolve();
                self.cr = true;
            }
            _ => {
                self.resolve();
                self.read(x);
            }
        }
    }

    // Bytes that follow what was read so far.
    #[tactic(auto, using(crate::proofs::Feeding::by_bytes))]
    pub fn feed(&mut self, bytes: &[u8])
        ensures fed { self.new ≡ fed self.old bytes.now }
    {
        for x in bytes {
            self.step(*x);
        }
    }

    // The text is over: the last line, which may lack its end, is closed.
    #[tactic(auto, unfolding(crate::specs::Reading::ended))]
    pub fn ended(mut self) -> Reader
        ensures ended { result ≡ ended self }
    {
        self.resolve();
        self.close();
        self
    }
}
