ghost use Rattle.std.specs.Prelude.{◌≡◌, ◌≤◌};
ghost use Rattle.mixed_language.specs.Language.{operations, word_of, slots_of, domain_of, is_in, gives, widths_of, arity_of};

use share_types::Sharing;

/// What a line of a circuit says, told apart by its words alone.
#[derive(Clone, Copy)]
pub enum Operation {
    InputWord,
    InputBits,
    ConstWord,
    ConstBits,
    Add,
    Sub,
    Mul,
    AddConst,
    MulConst,
    Xor,
    And,
    Not,
    Slice,
    Join,
    A2Y,
    A2B,
    B2Y,
    Y2B,
    B2A,
    Y2A,
    Output,
}

/// What one word of a line stands for.
#[derive(Clone, Copy)]
pub enum Slot {
    /// The name of the line's value.
    Name,
    /// `=`.
    Equals,
    /// The operation's word.
    Keyword,
    /// The party whose input it is.
    Owner,
    /// The letter of a sharing.
    Letter,
    /// A width from 1 to 64.
    Width,
    /// The place of a bit, from 0 to 63.
    Place,
    /// A number below 2^64.
    Constant,
    /// The name of an earlier value.
    Operand,
    /// `all`, or a party.
    Told,
}

/// How the operands of an operation may be shared, all of them alike.
#[derive(Clone, Copy)]
pub enum Domain {
    /// A.
    Arithmetic,
    /// B.
    Boolean,
    /// Y.
    Garbled,
    /// B or Y.
    Vectors,
    /// Any.
    Every,
}

/// How the width of an operation's value follows from its operands and its line.
#[derive(Clone, Copy)]
pub enum Widths {
    /// 64.
    Whole,
    /// The width that the line states.
    Stated,
    /// The width of the operands, all of them alike.
    Alike,
    /// The width that the line states, of bits that the operand has.
    Cut,
    /// The sum of the operands' widths, at most 64.
    Joined,
}

/// Every operation, in the order in which lines are compared with them.
static OPERATIONS: [Operation; 21] = [
    Operation::InputWord,
    Operation::InputBits,
    Operation::ConstWord,
    Operation::ConstBits,
    Operation::Add,
    Operation::Sub,
    Operation::Mul,
    Operation::AddConst,
    Operation::MulConst,
    Operation::Xor,
    Operation::And,
    Operation::Not,
    Operation::Slice,
    Operation::Join,
    Operation::A2Y,
    Operation::A2B,
    Operation::B2Y,
    Operation::Y2B,
    Operation::B2A,
    Operation::Y2A,
    Operation::Output,
];

impl Operation {
    /// Every operation, in the order in which lines are compared with them.
    pub fn all() -> &'static [Operation]
        ensures { result.now ≡ operations }
    {
        OPERATIONS.as_slice()
    }

    /// The word that a line says it by.
    pub fn word(self) -> &'static [u8]
        ensures { result.now ≡ word_of self }
    {
        match self {
            Operation::InputWord | Operation::InputBits => b"input",
            Operation::ConstWord | Operation::ConstBits => b"const",
            Operation::Add => b"add",
            Operation::Sub => b"sub",
            Operation::Mul => b"mul",
            Operation::AddConst => b"add_const",
            Operation::MulConst => b"mul_const",
            Operation::Xor => b"xor",
            Operation::And => b"and",
            Operation::Not => b"not",
            Operation::Slice => b"slice",
            Operation::Join => b"join",
            Operation::A2Y => b"a2y",
            Operation::A2B => b"a2b",
            Operation::B2Y => b"b2y",
            Operation::Y2B => b"y2b",
            Operation::B2A => b"b2a",
            Operation::Y2A => b"y2a",
            Operation::Output => b"output",
        }
    }

    /// What the words of its line stand for, one each.
    pub fn slots(self) -> &'static [Slot]
        ensures { result.now ≡ slots_of self }
    {
        match self {
            Operation::InputWord => &INPUT_WORD,
            Operation::InputBits => &INPUT_BITS,
            Operation::ConstWord => &CONST_WORD,
            Operation::ConstBits => &CONST_BITS,
            Operation::AddConst | Operation::MulConst => &WITH_CONSTANT,
            Operation::Slice => &SLICE,
            Operation::Add
            | Operation::Sub
            | Operation::Mul
            | Operation::Xor
            | Operation::And
            | Operation::Join => &OF_TWO,
            Operation::Not
            | Operation::A2Y
            | Operation::A2B
            | Operation::B2Y
            | Operation::Y2B
            | Operation::B2A
            | Operation::Y2A => &OF_ONE,
            Operation::Output => &OUTPUT,
        }
    }

    /// How many operands it has.
    pub fn arity(self) -> usize
        ensures value { result ≡ arity_of self }
        ensures most { result ≤ 2 }
    {
        match self {
            Operation::InputWord
            | Operation::InputBits
            | Operation::ConstWord
            | Operation::ConstBits => 0,
            Operation::AddConst
            | Operation::MulConst
            | Operation::Not
            | Operation::Slice
            | Operation::A2Y
            | Operation::A2B
            | Operation::B2Y
            | Operation::Y2B
            | Operation::B2A
            | Operation::Y2A
            | Operation::Output => 1,
            Operation::Add
            | Operation::Sub
            | Operation::Mul
            | Operation::Xor
            | Operation::And
            | Operation::Join => 2,
        }
    }

    /// How its operands may be shared, or its value where the line has a letter.
    pub fn domain(self) -> Domain
        ensures { result ≡ domain_of self }
    {
        match self {
            Operation::InputWord
            | Operation::ConstWord
            | Operation::Add
            | Operation::Sub
            | Operation::Mul
            | Operation::AddConst
            | Operation::MulConst
            | Operation::A2Y
            | Operation::A2B => Domain::Arithmetic,
            Operation::InputBits
            | Operation::ConstBits
            | Operation::Xor
            | Operation::And
            | Operation::Not
            | Operation::Slice
            | Operation::Join => Domain::Vectors,
            Operation::B2Y | Operation::B2A => Domain::Boolean,
            Operation::Y2B | Operation::Y2A => Domain::Garbled,
            Operation::Output => Domain::Every,
        }
    }

    /// How its value is shared, where its operands or its letter are of a sharing.
    pub fn gives(self, sharing: Sharing) -> Sharing
        ensures { result ≡ gives self sharing }
    {
        match self {
            Operation::A2Y | Operation::B2Y => Sharing::Y,
            Operation::A2B | Operation::Y2B => Sharing::B,
            Operation::B2A | Operation::Y2A => Sharing::A,
            _ => sharing,
        }
    }

    /// How wide its value is.
    pub fn widths(self) -> Widths
        ensures { result ≡ widths_of self }
    {
        match self {
            Operation::InputWord | Operation::ConstWord | Operation::B2A | Operation::Y2A => {
                Widths::Whole
            }
            Operation::InputBits | Operation::ConstBits => Widths::Stated,
            Operation::Slice => Widths::Cut,
            Operation::Join => Widths::Joined,
            _ => Widths::Alike,
        }
    }
}

impl Domain {
    /// Whether values that are shared so are among these.
    pub fn has(self, sharing: Sharing) -> bool
        ensures { result ≡ is_in self sharing }
    {
        match self {
            Domain::Arithmetic => matches!(sharing, Sharing::A),
            Domain::Boolean => matches!(sharing, Sharing::B),
            Domain::Garbled => matches!(sharing, Sharing::Y),
            Domain::Vectors => matches!(sharing, Sharing::B | Sharing::Y),
            Domain::Every => true,
        }
    }
}

static INPUT_WORD: [Slot; 5] = [
    Slot::Name,
    Slot::Equals,
    Slot::Keyword,
    Slot::Owner,
    Slot::Letter,
];

static INPUT_BITS: [Slot; 6] = [
    Slot::Name,
    Slot::Equals,
    Slot::Keyword,
    Slot::Owner,
    Slot::Letter,
    Slot::Width,
];

static CONST_WORD: [Slot; 5] = [
    Slot::Name,
    Slot::Equals,
    Slot::Keyword,
    Slot::Letter,
    Slot::Constant,
];

static CONST_BITS: [Slot; 6] = [
    Slot::Name,
    Slot::Equals,
    Slot::Keyword,
    Slot::Letter,
    Slot::Width,
    Slot::Constant,
];

static WITH_CONSTANT: [Slot; 5] = [
    Slot::Name,
    Slot::Equals,
    Slot::Keyword,
    Slot::Operand,
    Slot::Constant,
];

static SLICE: [Slot; 6] = [
    Slot::Name,
    Slot::Equals,
    Slot::Keyword,
    Slot::Operand,
    Slot::Place,
    Slot::Width,
];

static OF_TWO: [Slot; 5] = [
    Slot::Name,
    Slot::Equals,
    Slot::Keyword,
    Slot::Operand,
    Slot::Operand,
];

static OF_ONE: [Slot; 4] = [Slot::Name, Slot::Equals, Slot::Keyword, Slot::Operand];

static OUTPUT: [Slot; 3] = [Slot::Keyword, Slot::Operand, Slot::Told];
