// The schema's table, what its codes stand for, and the sections.
#![tactic(auto)]

ghost use Rattle.std.specs.Prelude.{◌≡◌, length, get_or};
ghost use Rattle.rl_spec.specs.Schema.{sort_of, width_of, in_section, tallest, count_of, fields_of};
ghost use Rattle.rl_spec.specs.Fields.{entry_at, lists_at};
ghost use Rattle.rl_schema.specs.Codes.{codes, table};

use rl_bytes::{get_or, u16_at};
use rl_spec::{Counts, Section, Sort, Target};

// The schema: for each kind its fields' codes, one byte each, the first lowest; 0 where it is no kind.
static SCHEMA: [u64; 84] = [
    0,
    0,
    // 2 Text
    0x0b,
    // 3 List entry
    0x02,
    0,
    0,
    0,
    0,
    0,
    0,
    0,
    0,
    0,
    0,
    0,
    0,
    // 16 Null
    0x03,
    // 17 Integer
    0x04_03,
    // 18 SInt
    0x03_03,
    // 19 UInt
    0x04_03,
    // 20 SUInt
    0x03_03,
    // 21 Byte
    0x01_03,
    // 22 SByte
    0x01_03,
    // 23 BByte
    0x02_03,
    // 24 BSByte
    0x02_03,
    // 25 String
    0x0c_03,
    // 26 Bool
    0x05_03,
    // 27 Float
    0x04_03,
    // 28 SFloat
    0x03_03,
    // 29 Character
    0x0a_03,
    // 30 Identifier
    0x0c_03,
    // 31 ResolvedIdentifier
    0x03_03_0c_03,
    // 32 Binary
    0x0d_06_0d_03,
    // 33 Unary
    0x0d_06_03,
    // 34 Grouping
    0x0d_03,
    // 35 ArrayLiteral
    0x13_03,
    // 36 MapLiteral
    0x14_03,
    // 37 SetLiteral
    0x13_03,
    // 38 TupleLiteral
    0x13_03,
    // 39 Assign
    0x0d_0c_03,
    // 40 ResolvedAssign
    0x0d_03_03_0c_03,
    // 41 Call
    0x13_12_03,
    // 42 CallExpr
    0x13_0d_03,
    // 43 MethodCall
    0x13_12_0d_03,
    // 44 Index
    0x0d_0d_03,
    // 45 IndexAssign
    0x0d_0d_0d_03,
    // 46 Cast
    0x03_0d_03,
    // 47 Is
    0x03_0d_03,
    // 48 ErrorLiteral
    0x0d_03,
    // 49 OkLiteral
    0x0d_03,
    // 50 ErrLiteral
    0x0d_03,
    // 51 Propagate
    0x0d_03,
    // 52 StructLiteral
    0x15_0c_03,
    // 53 FieldAccess
    0x0c_0d_03,
    // 54 FieldAssign
    0x0d_0c_0d_03,
    // 55 EnumVariant
    0x0c_0c_03,
    // 56 Lambda
    0x03_03,
    // 57 ResolvedLambda
    0x03_03,
    0,
    0,
    0,
    0,
    0,
    0,
    // 64 VariableDeclaration
    0x03_0d_03_0c_03,
    // 65 Expression
    0x0d_03,
    // 66 Return
    0x0d_03,
    // 67 Return alone
    0x03,
    // 68 Conditional
    0x11_10_03,
    // 69 ConditionalBranch
    0x05_16_0e_03,
    // 70 While
    0x16_0d_03,
    // 71 Loop
    0x16_03,
    // 72 For
    0x16_0d_0d_0f_03,
    // 73 ForRange
    0x16_0f_0c_03,
    // 74 ForEach
    0x16_0d_0c_03,
    // 75 Match
    0x17_0d_03,
    // 76 match arm
    0x16_0e_03,
    // 77 Break
    0x03,
    // 78 Continue
    0x03,
    // 79 any other statement
    0x03_03,
    // 80 Parameter
    0x09_08_07_03_0c,
    // 81 Clause
    0x0e_0d,
    // 82 Function
    0x19_19_16_05_18_03_0c,
    // 83 Call
    0x13_03_0c,
];

// The sections, in the image's order.
pub const SECTIONS: [Section; 8] = [
    Section::Texts,
    Section::Lists,
    Section::Expressions,
    Section::Statements,
    Section::Parameters,
    Section::Clauses,
    Section::Functions,
    Section::Calls,
];

// A copy of the table, to lend.
#[tactic(auto, unfolding(crate::specs::Codes::table))]
pub fn schema_table() -> [u64; 84]
    ensures value { result ≡ table }
    ensures value_2 { 84 ≡ length result }
{
    SCHEMA
}

// A kind's row in a table; 0 where there is none.
pub fn row_of(rows: &[u64], kind: u8) -> u64
    ensures { result ≡ get_or rows.now kind 0 }
{
    get_or(rows, usize::from(kind), 0)
}

// A kind's row in the schema; 0 where it is none.
#[tactic(auto, using(crate::proofs::Rows::row_is), unfolding(crate::specs::Codes::table))]
pub fn schema_row(kind: u8) -> u64
    ensures row { result ≡ get_or table kind 0 }
    ensures fields { codes result ≡ fields_of kind }
{
    get_or(&SCHEMA, usize::from(kind), 0)
}

#[tactic(auto, unfolding(rl_spec::specs::Schema::sort_of))]
pub fn sort_of(code: u8) -> Sort
    ensures { result ≡ sort_of code }
{
    use Target::{Arm, Branch, ElseBranch, Expression, Statement, Text};

    match code {
        1 => Sort::Raw { width: 1 },
        2 => Sort::Raw { width: 2 },
        3 => Sort::Raw { width: 4 },
        4 => Sort::Raw { width: 8 },
        5 => Sort::Byte { low: 0, high: 1 },
        6 => Sort::Byte { low: 1, high: 63 },
        7 => Sort::Byte { low: 0, high: 6 },
        8 => Sort::OperandSort,
        9 => Sort::Operand,
        10 => Sort::Scalar,
        11 => Sort::Part,
        12 => Sort::One { target: Text },
        13 => Sort::One { target: Expression },
        14 => Sort::Maybe { target: Expression },
        15 => Sort::One { target: Statement },
        16 => Sort::One { target: Branch },
        17 => Sort::Maybe { target: ElseBranch },
        18 => Sort::Many {
            left: Text,
            right: Text,
            step: 1,
        },
        19 => Sort::Many {
            left: Expression,
            right: Expression,
            step: 1,
        },
        20 => Sort::Many {
            left: Expression,
            right: Expression,
            step: 2,
        },
        21 => Sort::Many {
            left: Text,
            right: Expression,
            step: 2,
        },
        22 => Sort::Many {
            left: Statement,
            right: Statement,
            step: 1,
        },
        23 => Sort::Many {
            left: Arm,
            right: Arm,
            step: 1,
        },
        24 => Sort::Range {
            section: Section::Parameters,
        },
        _ => Sort::Range {
            section: Section::Clauses,
        },
    }
}

pub fn width_of(sort: Sort) -> usize
    ensures { result ≡ width_of sort }
{
    match sort {
        Sort::Raw { width } => usize::from(width),
        Sort::Byte { .. } | Sort::OperandSort => 1,
        Sort::One { .. } | Sort::Maybe { .. } => 2,
        Sort::Scalar | Sort::Part | Sort::Many { .. } | Sort::Range { .. } => 4,
        Sort::Operand => 8,
    }
}

// Whether a kind is one of a section's.
#[tactic(auto, unfolding(rl_spec::specs::Schema::in_section))]
pub fn in_section(section: Section, kind: u8) -> bool
    ensures { result ≡ in_section section kind }
{
    let kinds = match section {
        Section::Texts => 2..=2,
        Section::Lists => 3..=3,
        Section::Expressions => 16..=57,
        Section::Statements => 64..=79,
        Section::Parameters => 80..=80,
        Section::Clauses => 81..=81,
        Section::Functions => 82..=82,
        Section::Calls => 83..=83,
    };
    kinds.contains(&kind)
}

pub fn tallest_in(section: Section) -> u16
    ensures { result ≡ tallest section }
{
    match section {
        Section::Expressions => 68,
        Section::Statements => 36,
        _ => 1,
    }
}

pub fn count_in(c: Counts, section: Section) -> u16
    ensures { result ≡ count_of c section }
{
    match section {
        Section::Texts => c.texts,
        Section::Lists => c.lists,
        Section::Expressions => c.expressions,
        Section::Statements => c.statements,
        Section::Parameters => c.parameters,
        Section::Clauses => c.clauses,
        Section::Functions => c.functions,
        Section::Calls => c.calls,
    }
}

// Where the list entries start.
pub fn lists_at(seen: Counts) -> usize
    ensures { result ≡ lists_at seen }
{
    23 + usize::from(seen.bytes) + usize::from(seen.texts) * 5
}

// The k-th list entry.
#[tactic(auto, unfolding(rl_spec::specs::Fields::entry_at))]
pub fn entry_at(s: &[u8], seen: Counts, k: u32) -> u16
    ensures { result ≡ entry_at s.now seen k }
{
    u16_at(s, lists_at(seen) + (k as usize) * 3 + 1)
}
