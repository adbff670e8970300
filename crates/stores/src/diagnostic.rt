// Diagnostics, made of lines, places and offsets that can't be taken for one another, and stored
// in a lent list.
ghost use Rattle.std.specs.Prelude.{◌≡◌, ◌≤◌, length};
ghost use Rattle.rules.specs.Limits.{diagnostic_limit};
ghost use Rattle.rules.specs.Diagnostics.{diagnostic, unless, clef_diagnosed};
ghost use Rattle.rules.specs.Words.{position_words, value_words, diagnostic_words};
ghost use Rattle.stores.specs.Diagnostics.{WritesRemark, remark_number, position_in, value_in};
ghost use Rattle.stores.specs.Diagnostics.{AtFits, ValueFits, six_words, lent_of, blanks};
ghost use Rattle.stores.specs.Diagnostics.{diagnosed, count_after, count_after_all, list_after_all};
ghost use Rattle.tokens.specs.Attributes.{clef_value};

use scan::lines::{Line, Offset};
use tokens::attributes::ClefValue;
use tokens::cut::Place;

/// So many diagnostics are stored at most.
pub const MAX_DIAGNOSTICS: usize = 1024;

/// What is remarked, d1 to d20.
#[derive(Clone, Copy, Debug, PartialEq, Eq)]
pub enum Remark {
    NoField = 1,
    UnknownKey = 2,
    AfterNotes = 3,
    Mensural = 4,
    UnknownClef = 5,
    UnusualKey = 6,
    NoMeter = 7,
    OctaveRange = 8,
    LoneColon = 9,
    GroupInLaterBar = 10,
    TooFew = 11,
    GroupCount = 12,
    NoGroup = 13,
    TrillAlone = 14,
    NoRule = 15,
    TieAlone = 16,
    FigureInLaterBar = 17,
    NoFigure = 18,
    NoBarToRepeat = 19,
    WholeBarCount = 20,
}

impl From<Remark> for i32 {
    ghost from_gives = { WritesRemark };

    fn from(remark: Remark) -> i32 {
        remark as i32
    }
}

/// Where: a line, a line with a field, or a place in the data.
#[derive(Clone, Copy, Debug, PartialEq, Eq)]
pub enum At {
    Line(Line),
    Field(Line),
    Data(Place),
}

/// A part of the text, the value `()`, or a number.
#[derive(Clone, Copy, Debug, PartialEq, Eq)]
pub enum Value {
    Part(Offset, Offset),
    Parentheses,
    Number(u32),
}

/// Number; place kind (1 line, 2 line with field, 3 data), place; value kind (1 part of the text,
/// 2 `()`, 3 a number), start, end.
#[repr(C)]
#[derive(Clone, Copy, Debug, Default, PartialEq, Eq)]
pub struct Diagnostic {
    pub number: i32,
    pub place_kind: i32,
    pub place: i32,
    pub value_kind: i32,
    pub start: i32,
    pub end: i32,
}

// `AtFits` and `ValueFits` are asked for, and are no invariant: Rattle has no model of an enum.
impl At {
    // Its kind and its number.
    fn words(self) -> [i32; 2]
        requires { AtFits self }
        ensures { result ≡ position_words (position_in self) }
    {
        match self {
            At::Line(line) => [1, line.0 as i32],
            At::Field(line) => [2, line.0 as i32],
            At::Data(place) => [3, place.0 as i32],
        }
    }
}

impl Value {
    // Its kind, start and end.
    fn words(self) -> [i32; 3]
        requires { ValueFits self }
        ensures { result ≡ value_words (value_in self) }
    {
        match self {
            Value::Part(start, end) => [1, start.0 as i32, end.0 as i32],
            Value::Parentheses => [2, 0, 0],
            Value::Number(number) => [3, number as i32, 0],
        }
    }
}

impl Diagnostic {
    /// A remark with its place and value.
    pub fn new(remark: Remark, at: At, value: Value) -> Diagnostic
        requires at_fits { AtFits at }
        requires value_fits { ValueFits value }
        ensures lent { result ≡
            lent_of (diagnostic (remark_number remark) (position_in at) (value_in value)) }
        ensures words { six_words result ≡
            diagnostic_words (diagnostic (remark_number remark) (position_in at) (value_in value)) }
    {
        let [place_kind, place] = at.words();
        let [value_kind, start, end] = value.words();
        Diagnostic {
            number: remark.into(),
            place_kind,
            place,
            value_kind,
            start,
            end,
        }
    }
}

/// The diagnostics of a reading, in a lent list.
#[derive(Drop)]
pub struct Diagnostics<'a> {
    pub list: &'a mut [Diagnostic],
    pub count: usize,
    ghost few: { count ≤ diagnostic_limit },
}

impl<'a> Diagnostics<'a> {
    /// None yet, in a cleared list.
    pub fn new(list: &'a mut [Diagnostic]) -> Diagnostics<'a>
        ensures same_list { result.list.ghost_name ≡ list.entry.ghost_name }
        ensures cleared { result.list.now ≡ blanks (length list.old) }
        ensures empty { result.count ≡ 0 }
    {
        list.fill(Diagnostic::default());
        Diagnostics { list, count: 0 }
    }

    /// Clears the whole list.
    pub fn clear(&mut self)
        ensures same_list { self.new.list.ghost_name ≡ self.old.list.ghost_name }
        ensures cleared { self.new.list.now ≡ blanks (length self.old.list.now) }
        ensures empty { self.new.count ≡ 0 }
    {
        self.count = 0;
        self.list.fill(Diagnostic::default());
    }

    // Three parameters, here and below: they are made where they are pushed, each by itself.
    /// Stores one more at the count, where the list has a cell; those beyond the first 1,024 are
    /// dropped.
    pub fn push(&mut self, remark: Remark, at: At, value: Value)
        requires at_fits { AtFits at }
        requires value_fits { ValueFits value }
        ensures same_list { self.new.list.ghost_name ≡ self.old.list.ghost_name }
        ensures stored { self.new.list.now ≡ diagnosed self.old.list.now self.old.count
            (lent_of (diagnostic (remark_number remark) (position_in at) (value_in value))) }
        ensures counted { self.new.count ≡ count_after self.old.count }
    {
        if self.count < MAX_DIAGNOSTICS {
            if self.count < self.list.len() {
                self.list[self.count] = Diagnostic::new(remark, at, value);
            }
            self.count += 1;
        }
    }

    /// What a clef's value says: a `+` is mensural; d5, no clef that is known, comes after that.
    pub fn push_clef(&mut self, at: At, value: Value, clef: ClefValue)
        requires at_fits { AtFits at }
        requires value_fits { ValueFits value }
        ensures same_list { self.new.list.ghost_name ≡ self.old.list.ghost_name }
        ensures stored { self.new.list.now ≡ list_after_all self.old.list.now self.old.count
            (clef_diagnosed (position_in at) (value_in value) (clef_value clef)) }
        ensures counted { self.new.count ≡ count_after_all self.old.count
            (clef_diagnosed (position_in at) (value_in value) (clef_value clef)) }
    {
        if clef.mensural {
            self.push(Remark::Mensural, at, value);
        }
        if clef.clef.is_none() {
            self.push(Remark::UnknownClef, at, value);
        }
    }

    /// Stores one more where a test fails, as of a key that is standard or a meter that is taken.
    pub fn push_unless(&mut self, fine: bool, remark: Remark, at: At, value: Value)
        requires at_fits { AtFits at }
        requires value_fits { ValueFits value }
        ensures same_list { self.new.list.ghost_name ≡ self.old.list.ghost_name }
        ensures stored { self.new.list.now ≡ list_after_all self.old.list.now self.old.count
            (unless fine (diagnostic (remark_number remark) (position_in at) (value_in value))) }
        ensures counted { self.new.count ≡ count_after_all self.old.count
            (unless fine (diagnostic (remark_number remark) (position_in at) (value_in value))) }
    {
        if !fine {
            self.push(remark, at, value);
        }
    }
}
