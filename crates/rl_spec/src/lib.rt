// The types that the definitions in specs/ and the code above them share.
#![tactic(auto)]

// The number of an arena, and the number of a node in it: two types, so that neither is taken for the other.
#[derive(Clone, Copy)]
pub struct ArenaNo(pub u32);

#[derive(Clone, Copy)]
pub struct NodeNo(pub u32);

// A node of an arena.
#[derive(Clone, Copy)]
pub struct Id {
    pub arena: ArenaNo,
    pub node: NodeNo,
}

// The header's counts, in its order.
#[derive(Clone, Copy)]
pub struct Counts {
    pub bytes: u16,
    pub texts: u16,
    pub lists: u16,
    pub expressions: u16,
    pub statements: u16,
    pub parameters: u16,
    pub clauses: u16,
    pub functions: u16,
    pub calls: u16,
}

// Why an argument is refused, with the number that programs in C see (`number_of`).
#[derive(Clone, Copy)]
pub enum Cause {
    ImageTooLong = 1,
    WorkTooShort = 2,
    BytesEnd = 3,
    WrongKind = 4,
    CountOverLimit = 5,
    BadText = 6,
    BadValue = 7,
    BadReference = 8,
    TooHigh = 9,
    BytesLeft = 10,
    NoSuchFunction = 11,
    HeightOverLimit = 12,
    OutputTooShort = 13,
    LimitPassed = 14,
    OtherArena = 15,
    NoSuchNode = 16,
    NoSuchCall = 17,
    ReportsTooShort = 18,
    WrongValues = 19,
    NoSuchText = 20,
    BudgetOverLimit = 21,
    PagesTooShort = 22,
}

// A refusal: its cause, and the place in the image. What answers may refuse is a `Result` with this error.
#[derive(Clone, Copy)]
pub struct Refusal {
    pub cause: Cause,
    pub place: usize,
}

impl Cause {
    ghost use Rattle.std.specs.Prelude.{◌≡◌};

    // A refusal for this cause at a place in the image.
    pub fn at(self, place: usize) -> Refusal
        ensures { result ≡ record { cause = self; place = place } }
    {
        Refusal { cause: self, place }
    }
}

// What is refused for an argument other than the image has place 0.
impl From<Cause> for Refusal {
    ghost use Rattle.std.specs.Prelude.{◌≡◌};
    ghost use Rattle.rl_spec.specs.Answers.{at_zero};

    ghost from_gives = { λ cause r. r ≡ at_zero cause };

    fn from(cause: Cause) -> Refusal {
        Refusal { cause, place: 0 }
    }
}

// What the reader finds of an image that it accepts.
#[derive(Clone, Copy)]
pub struct Accepted {
    pub arena: ArenaNo,
    pub counts: Counts,
}

// The sections that hold records.
#[derive(Clone, Copy)]
pub enum Section {
    Texts,
    Lists,
    Expressions,
    Statements,
    Parameters,
    Clauses,
    Functions,
    Calls,
}

// What a reference has to find.
#[derive(Clone, Copy)]
pub enum Target {
    Text,
    Expression,
    // any statement but a match arm
    Statement,
    Branch,
    ElseBranch,
    Arm,
}

// The sorts of field.
#[derive(Clone, Copy)]
pub enum Sort {
    // bytes of any value
    Raw {
        width: u8,
    },
    // a byte from low to high
    Byte {
        low: u8,
        high: u8,
    },
    // a Unicode scalar
    Scalar,
    // a text's offset and length
    Part,
    One {
        target: Target,
    },
    // 65,535 for none
    Maybe {
        target: Target,
    },
    // list entries, by turns a left and a right; their count is a multiple of step
    Many {
        left: Target,
        right: Target,
        step: u8,
    },
    // records of a section
    Range {
        section: Section,
    },
    OperandSort,
    Operand,
}

// After a record, or a run of them: the next place, and the greatest height of a child so far.
#[derive(Clone, Copy)]
pub struct Next {
    pub at: usize,
    pub tall: u16,
}

// A folded value; a text by its index.
#[derive(Clone, Copy)]
pub enum ConstVal {
    Int(i64),
    Float(f64),
    Str(u16),
    Bool(bool),
}

#[derive(Clone, Copy)]
pub enum RefineOp {
    Gt,
    Ge,
    Lt,
    Le,
    Eq,
    Ne,
}

#[derive(Clone, Copy)]
pub enum ArithOp {
    Plus,
    Minus,
    Star,
    Slash,
}

// What an expression is to folding and running; its parts by their indices.
#[derive(Clone, Copy)]
pub enum Form {
    Null,
    // what a literal folds to
    Literal(Option<ConstVal>),
    Identifier(u16),
    Unary { operator: u8, operand: u16 },
    Binary { left: u16, operator: u8, right: u16 },
    Grouping(u16),
    Assign { name: u16, value: u16 },
    OkLiteral(u16),
    ErrLiteral(u16),
    // the calls of std::res::is_err and std::res::result_unwrap on one argument
    IsErr(u16),
    ResultUnwrap(u16),
    Other,
}

// A contract that a call provably violates: the refinement of a parameter or a requires clause, by its number in the callee's list.
#[derive(Clone, Copy)]
pub enum Violation {
    Refinement(u16),
    Requires(u16),
}

// What a parameter's value is compared with.
#[derive(Clone, Copy)]
pub enum RefineOperand {
    Integer(i64),
    Str(u16),
    Bool(bool),
    Param(u16),
}

#[derive(Clone, Copy)]
pub struct Refinement {
    pub op: RefineOp,
    pub operand: RefineOperand,
}

#[derive(Clone, Copy)]
pub struct Param {
    pub name: u16,
    pub refinement: Option<Refinement>,
}

// A clause's nodes.
#[derive(Clone, Copy)]
pub struct Clause {
    pub condition: u16,
    pub message: Option<u16>,
}

// Entries of the lists, or records of a section: the first and the count.
#[derive(Clone, Copy)]
pub struct Interval {
    pub first: u16,
    pub count: u16,
}

#[derive(Clone, Copy)]
pub struct Function {
    pub name: u16,
    pub span: u32,
    pub params: Interval,
    pub result: bool,
    pub body: Interval,
    pub required: Interval,
    pub ensured: Interval,
}

#[derive(Clone, Copy)]
pub struct Call {
    pub callee: u16,
    pub span: u32,
    pub args: Interval,
}

// What a record of the section of statements is to the runner; its parts by their indices.
#[derive(Clone, Copy)]
pub enum StatementForm {
    Declaration {
        name: u16,
        value: u16,
    },
    Expression(u16),
    Return(u16),
    ReturnAlone,
    Conditional {
        branch: u16,
        other: Option<u16>,
    },
    Branch {
        condition: Option<u16>,
        body: Interval,
    },
    While {
        condition: u16,
        body: Interval,
    },
    Loop(Interval),
    Break,
    Continue,
    Other,
}

// A folded value or Null.
#[derive(Clone, Copy)]
pub enum Plain {
    Null,
    Const(ConstVal),
}

// A value of the runner.
#[derive(Clone, Copy)]
pub enum Value {
    Plain(Plain),
    Ok(Plain),
    Err(Plain),
}

#[derive(Clone, Copy)]
pub struct Argument {
    pub value: Value,
}

// The values of the parameters: the first `count` of these.
#[derive(Clone, Copy)]
pub struct Arguments {
    pub values: [Argument; 16],
    pub count: u32,
}

// How a run ends.
#[derive(Clone, Copy)]
pub enum Outcome {
    Returned(Value),
    Stopped(Plain),
    Fault(u8),
    Spent,
}

// A run: how it ends, and the steps that it uses.
#[derive(Clone, Copy)]
pub struct Run {
    pub outcome: Outcome,
    pub steps: u32,
}

// Where a text's bytes are in the image: the first's place, and how many.
#[derive(Clone, Copy)]
pub struct TextPart {
    pub start: u32,
    pub length: u32,
}
